// The form of a day file's bytes: its reader and the walks of its heads and lines (document 01, 'Day file').
#![tactic(auto)]

use rules::Key;

pub mod reader;
pub mod walk;

// Where a walk of a file stands: the byte it has come to, the lines of the block still to come, and the block's party and day.
#[derive(Clone, Copy)]
pub struct Cursor {
    pub at: usize,
    pub left: u32,
    pub party: u32,
    pub day: u32,
}

// One line: its key, with the party and day of its block, and its amount.
#[derive(Clone, Copy)]
pub struct Line {
    pub key: Key,
    pub amount: u64,
}
