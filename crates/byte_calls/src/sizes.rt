// The arrays that a book's words are read into: each has room for the words of some entries and of one more. A small book
// clears a small array.

// 25 entries.
pub const SMALL_WORDS: usize = 133;

// 127 entries.
pub const MIDDLE_WORDS: usize = 643;

// 768 entries; above that an array for a full book serves.
pub const WIDE_WORDS: usize = 3848;
