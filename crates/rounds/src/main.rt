#![tactic(auto)]
// Plays the book of the standard input and prints its rounds with their marks, or why the book is refused.
use play_listing::{LONGEST_BOOK, LONGEST_LISTING, list_whole};
use texts::Text;
use words::part;

// Of a longer input one byte more than a longest book has is read: it is refused as its first bytes say.
const MOST_BYTES: usize = LONGEST_BOOK + 1;

fn print_play(book: &[u8], listing: &mut [u8; LONGEST_LISTING]) {
    let used = list_whole(book, listing);
    Text { out: listing, used }.print();
}

fn main() {
    let mut bytes = [0u8; MOST_BYTES];
    let mut listing = [0u8; LONGEST_LISTING];
    let count = io::read_full(0, &mut bytes);
    print_play(part(&bytes, count), &mut listing);
}
