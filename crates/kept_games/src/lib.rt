#![tactic(auto)]
// Games that a C program keeps as bytes, as definitions, and that playing them is playing games. There is no code here but a constant.

// The bytes of the longest stored game.
pub const MOST_STORED: usize = 858;
