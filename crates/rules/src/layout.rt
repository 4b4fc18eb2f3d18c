// The layout of a book's words and of a day file's (01, 'The words', 'Day file'). Figures are `u32`; where one is an index it is
// taken `as usize`, to which no `From` leads, and a quotient or remainder that is known to fit is cut by `as`, which is proved.

// A word's top four bits of 32 are its kind.
pub const KIND: u32 = 268435456;

// The word of each kind with value 0: an entry's five, and the three before the entries.
pub const PARTY_WORD: u32 = 0x10000000;

pub const DAY_WORD: u32 = 0x20000000;

pub const FIGURES_WORD: u32 = 0x30000000;

pub const LOW_WORD: u32 = 0x40000000;

pub const HIGH_WORD: u32 = 0x50000000;

pub const COUNT_WORD: u32 = 0x60000000;

pub const COEFFICIENT_WORD: u32 = 0x70000000;

pub const TOLERANCE_WORD: u32 = 0x80000000;

// Two words as one number: the first, and this many times the second.
pub const WORD_VALUES: u64 = 4294967296;

// The words before the entries, those of an entry, and those of a full book.
pub const HEAD_WORDS: usize = 3;

pub const ENTRY_WORDS: usize = 5;

pub const BOOK_WORDS: usize = 15363;

// The fields of a kind 3 word: type below this, then the counterparty, the status from here on.
pub const TYPES: u32 = 256;

pub const COUNTERPARTIES: u32 = 65536;

pub const STATUS: u32 = 16777216;

// An amount's low bits are the value of a kind 4 word; its next bits, in a file's kind 5 word, are below this (02, T-06).
pub const LOW_AMOUNT: u64 = 268435456;

pub const HIGH_AMOUNT: u32 = 65536;

// An amount that a file's line can hold is below this.
pub const AMOUNTS: u64 = LOW_AMOUNT * (HIGH_AMOUNT as u64);

// The first word of a file's block: the party below this, then the number of lines, below that.
pub const PARTIES: u32 = 65536;

pub const LINES: u32 = 4096;

// Types and statuses with a rule of their own. They are the paper's numbers in words, files and C figures alike, and scans compare
// whole words: so they are no enums.
pub const BILATERAL: u32 = 6;

pub const MARK: u32 = 21;

pub const UPDATED_PROGRAM: u32 = 22;

pub const STANDING: u32 = 0;

pub const WITHDRAWN: u32 = 1;

pub const CANCELLED: u32 = 2;

// The kind 3 words of status 1 and 2 with type and counterparty 0.
pub const WITHDRAWN_WORD: u32 = FIGURES_WORD + WITHDRAWN * STATUS;

pub const CANCELLED_WORD: u32 = FIGURES_WORD + CANCELLED * STATUS;
