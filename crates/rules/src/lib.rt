// Document 01 as definitions (specs/), the data types that calls take, refusals, and the answers. The structs that begin with an
// `answer` are those of the C header: code passes results on, and `answers` makes the structs of them.
#![tactic(auto)]

use case_figures::Month;

pub mod answers;
pub mod bounds;
pub mod layout;
mod refusal;

pub use refusal::Refusal;

// A post's answer: 0 and the entry's number, counted from 0, or the cause.
#[repr(C)]
#[derive(Clone, Copy)]
pub struct Posted {
    pub answer: u32,
    pub number: u32,
}

// The number of entries of a book.
#[repr(C)]
#[derive(Clone, Copy)]
pub struct Counted {
    pub answer: u32,
    pub count: u32,
}

// What an entry is for: the four figures that a post names beside its amount.
#[derive(Clone, Copy, Debug, PartialEq, Eq)]
pub struct Key {
    pub party: u32,
    pub day: u32,
    pub entry_type: u32,
    pub counterparty: u32,
}

// An entry of a book.
#[derive(Clone, Copy, Debug, PartialEq, Eq)]
pub struct Entry {
    pub key: Key,
    pub status: u32,
    pub amount: u64,
}

// The answer to a call for one entry.
#[repr(C)]
#[derive(Clone, Copy)]
pub struct EntryRead {
    pub answer: u32,
    pub party: u32,
    pub day: u32,
    pub entry_type: u32,
    pub counterparty: u32,
    pub status: u32,
    pub amount: u64,
}

// A balance in hundredths of a kWh.
#[repr(C)]
#[derive(Clone, Copy)]
pub struct BalanceAnswer {
    pub answer: u32,
    pub balance: i64,
}

// The sums of a tally: one for each volume type.
pub const SUMS: usize = 17;

// A party's sums of a day, one for each volume type: 1 to 16, and 22 last.
#[repr(C)]
#[derive(Clone, Copy)]
pub struct Tally {
    pub party: u32,
    pub sums: [u64; SUMS],
}

// A tally, and B: what others sold to the party by bilateral sale.
#[derive(Clone, Copy)]
pub struct PartyDay {
    pub tally: Tally,
    pub bought: u64,
}

#[repr(C)]
#[derive(Clone, Copy)]
pub struct TallyAnswer {
    pub answer: u32,
    pub tally: Tally,
    pub bought: u64,
}

#[repr(C)]
#[derive(Clone, Copy)]
pub struct MonthAnswer {
    pub answer: u32,
    pub month: Month,
}

// Whether an offer is recordable, 1 or 0.
#[repr(C)]
#[derive(Clone, Copy)]
pub struct CeilingAnswer {
    pub answer: u32,
    pub recordable: u32,
}

// The first day of a month (02, T-08).
#[repr(C)]
#[derive(Clone, Copy)]
pub struct FirstDayAnswer {
    pub answer: u32,
    pub day: u32,
}

// The sums of a line of a month report, one for each type: 1 to 20, and 22 last.
pub const LINE_SUMS: usize = 21;

// The figures of its lines: at most 31 days, and the totals.
pub const REPORT_FIGURES: usize = 672;

// A month report (02, T-01): the month, its first day, how many days it has, and the sums line by line. Line i, from
// LINE_SUMS * i on, is that of day first_day + i; the line after the last day has the month's totals.
#[repr(C)]
#[derive(Clone, Copy)]
pub struct MonthReport {
    pub answer: u32,
    pub month: u32,
    pub first_day: u32,
    pub days: u32,
    pub lines: [u64; REPORT_FIGURES],
}

// The parties detected in each pass of a control, and the entries it cancelled.
#[derive(Clone, Copy, Debug, PartialEq, Eq)]
pub struct Counts {
    pub first: u32,
    pub second: u32,
    pub cancelled: u32,
}

#[repr(C)]
#[derive(Clone, Copy)]
pub struct Controlled {
    pub answer: u32,
    pub first: u32,
    pub second: u32,
    pub cancelled: u32,
}

// How many lines of a day file were posted.
#[repr(C)]
#[derive(Clone, Copy)]
pub struct FileRead {
    pub answer: u32,
    pub posted: u32,
}

// Each item of collateral and the total, in kurus.
#[derive(Clone, Copy, Debug, PartialEq, Eq)]
pub struct Items {
    pub margin: u64,
    pub trading: u64,
    pub imbalance: u64,
    pub risk: u64,
    pub yek: u64,
    pub total: u64,
}

#[repr(C)]
#[derive(Clone, Copy)]
pub struct Collateral {
    pub answer: u32,
    pub margin: u64,
    pub trading: u64,
    pub imbalance: u64,
    pub risk: u64,
    pub yek: u64,
    pub total: u64,
}
