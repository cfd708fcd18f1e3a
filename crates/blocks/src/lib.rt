#![tactic(auto)]
// Blocks: how they nest and whether they pause. What reading them finds.

// What stops a reading, with its place in the routine.
#[derive(Clone, Copy)]
pub enum Fault {
    Unreadable(usize),
    Misnested(usize),
}

// What reading a block or a step finds where no fault stops it: the place behind it, whether it pauses, and the lowest while in it whose
// body does not. That is the routine's step count where there is none, so that the lower of two is their minimum.
#[derive(Clone, Copy)]
pub struct Walked {
    pub behind: usize,
    pub pauses: bool,
    pub lowest: usize,
}
