#![tactic(auto)]
// Lists of routines: the playing order, and those to start. Document 01, "The game".
ghost use Rattle.std.specs.Prelude.{◌≡◌, ◌≤◌};
ghost use Rattle.lines.specs.Lines.{most_entries, line_of, used_of, is_in, pushed};

// How many entries a list has room for.
pub const MOST_ENTRIES: usize = 64;

// A list of routines: its first `len` entries. An array with its length beside it, since there is no heap, and games
// are lent to `zulqenat_fits` of fit_c in this layout.
#[repr(C)]
#[derive(Clone, Copy)]
pub struct Line {
    pub items: [u8; MOST_ENTRIES],
    pub len: usize,
}

// How many entries of a list count: as many as its length says, and no more than there are.
pub fn used(line: Line) -> usize
    ensures { (result ≡ used_of line) × (result ≤ most_entries) }
{
    line.len.min(MOST_ENTRIES)
}

// Whether a routine is in a list.
pub fn is_in(line: Line, routine: u8) -> bool
    ensures { result ≡ is_in line routine }
{
    line.items[..used(line)].contains(&routine)
}

// A routine is put behind the first `len` entries, which are lent, and the new length is answered; where all are in use it is not put.
// By index: after `get_mut` a proof knows none of the entries.
pub fn push_entry(items: &mut [u8; MOST_ENTRIES], len: usize, routine: u8) -> usize
    ensures { line_of items.new result ≡ pushed (line_of items.old len) routine }
{
    if MOST_ENTRIES <= len {
        return len;
    }
    items[len] = routine;
    len + 1
}

// A routine is put at a list's end; a full list takes no more.
pub fn push(line: Line, routine: u8) -> Line
    ensures { result ≡ pushed line routine }
{
    let mut items = line.items;
    let len = push_entry(&mut items, line.len, routine);
    Line { items, len }
}
