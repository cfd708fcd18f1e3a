#![tactic(auto)]
// Runs the script of the input, a command a line, on a book and a game, and prints the answers.
// A line that is no command is told, and the script goes on. The input is read in pieces, so a script may be far longer than one.
mod buffers;
mod changes;
mod rounds;
mod starts;
mod stores;

ghost use Rattle.std.specs.Prelude.{◌≤◌, length};

use game::blank_game;
use pieces::{keep_from, whole_lines};
use scripts::{State, tell};
use words::{first, rest};

// The bytes of a piece. A line that has more, its end included, is no command.
const PIECE: usize = 65536;

// The most pieces that are read: those of any file.
const MOST_PIECES: usize = 4294967296;

// A byte that begins no command.
const NO_COMMAND: u8 = b'?';

// Carries a command out.
fn run_line(line: &[u8], state: &mut State) {
    let text = rest(line);
    let done = match first(line) {
        b"book" => return state.take_book(text),
        b"round" => rounds::round(text, state),
        b"unstarted" => starts::unstarted(text, state.book()),
        b"store" => stores::store(text, state),
        b"load" => stores::load(text, state),
        b"changes" => changes::changes(text, state),
        _ => return state.command(line),
    };
    if let Err(wrong) = done {
        tell(wrong);
    }
}

// Runs the lines of a text; the last one may lack its end.
fn run_lines(script: &[u8], state: &mut State) {
    for line in script.split_inclusive(|c| *c == b'\n') {
        run_line(line.strip_suffix(b"\n").unwrap_or(line), state);
    }
}

// Reads on behind the bytes that are kept, and answers how many the piece has then: no more than are kept where the input has ended.
// The piece and how many of its bytes are kept stand apart, here and below, since there is no heap.
fn read_piece(piece: &mut [u8], kept: usize) -> usize
    requires { kept ≤ length piece.old }
    ensures { (kept ≤ result) × (result ≤ length piece.old) }
{
    kept + io::read_full(0, &mut piece[kept..])
}

// Keeps what is left of a piece behind its whole lines for the next one, and answers how many bytes that is. Of a line that fills the piece
// a single byte is kept, with which it is no command wherever it ends.
fn keep_rest(piece: &mut [u8], whole: usize, end: usize) -> usize
    requires { end ≤ length piece.old }
    ensures { result ≤ length piece.old }
{
    let kept = keep_from(&mut piece[..end], whole);
    if kept < piece.len() {
        return kept;
    }
    match piece.first_mut() {
        Some(first) => {
            *first = NO_COMMAND;
            1
        }
        None => 0,
    }
}

fn run(piece: &mut [u8], state: &mut State) {
    let mut kept: usize = 0;
    for _ in 0..MOST_PIECES {
        let end = read_piece(piece, kept);
        if end == kept {
            run_lines(&piece[..kept], state);
            return;
        }
        let whole = whole_lines(&piece[..end]);
        run_lines(&piece[..whole], state);
        kept = keep_rest(piece, whole, end);
    }
    tell("input too long");
}

fn main() {
    let mut piece = [0u8; PIECE];
    let mut state = State::new(blank_game());
    run(&mut piece, &mut state);
}
