// The limits of document 01, by name.

// Parties, days and amounts (01, 'Entry types', 'Units and days').
pub const LAST_PARTY: u32 = 999;

pub const LAST_DAY: u32 = 36524;

// A place for each day, and for each number from 0 to the last party's.
pub const DAYS: usize = 36525;

pub const NUMBERS: usize = 1000;

// The months of these days: 2000 to 2099.
pub const MONTHS: u32 = 1200;

pub const MOST_VOLUME: u64 = 1000000000;

// Money may be up to this (02, T-06).
pub const MOST_MONEY: u64 = 10000000000000;

// A book (01, 'The words').
pub const MOST_ENTRIES: usize = 3072;

pub const MOST_COEFFICIENT: u32 = 1000;

pub const MOST_TOLERANCE: u32 = 200000000;

// The figures of an opening that names none (02, T-12).
pub const DEFAULT_COEFFICIENT: u32 = 105;

pub const DEFAULT_TOLERANCE: u32 = 500000;

// Month tables: hours, groups, and each figure (01, 'Month step').
pub const MOST_HOURS: usize = 745;

pub const MOST_ROWS: u32 = 64;

pub const MOST_PRICE: u32 = 1000000;

pub const MOST_IMBALANCE: u64 = 10000000;

// A figure of the sales ceiling (01, 'Sales ceiling').
pub const MOST_OFFER: u32 = 1000000000;

// The months of the years 2000 to 2399, whose first days are told (02, T-08).
pub const HORIZON_MONTHS: u32 = 4800;

// A day file (01, 'Day file').
pub const MOST_FILE_BYTES: usize = 65536;
