// The steps that make a book: each must be done.
use crate::book_words::{named, of_kind, put, put_entry, standing};
use crate::rows::{Row, low};
use rules::{Key, Refusal};

// Party, day, type, counterparty and amount are the first five figures.
pub fn post(book: &mut [u32], row: Row) -> Result<u32, Refusal> {
    let [party, day, entry_type, counterparty, amount, ..] = row.figures;
    let key = Key {
        party: low(party),
        day: low(day),
        entry_type: low(entry_type),
        counterparty: low(counterparty),
    };
    book::post(book, key, amount)
}

pub fn open(book: &mut [u32], row: Row) -> Result<(), Refusal> {
    let [coefficient, tolerance, ..] = row.figures;
    opening::open(book, low(coefficient), low(tolerance))
}

// The test writes one entry n times, and their count.
fn fill(book: &mut [u32], row: Row) -> bool {
    let [party, day, entry_type, counterparty, amount, n, ..] = row.figures;
    let _ = put(book, 0, of_kind(6, n));
    let entry = standing(party, day, named(entry_type, counterparty), amount);
    for number in 0..low(n) {
        put_entry(book, number, entry);
    }
    true
}

// O: open; P: post; W: withdraw; M: the test writes entries and their count; K: it writes a word.
pub fn make(book: &mut [u32], row: Row) -> bool {
    let [first, second, ..] = row.figures;
    match row.call {
        b'O' => open(book, row).is_ok(),
        b'P' => post(book, row).is_ok(),
        b'W' => book::withdraw(book, low(first)).is_ok(),
        b'M' => fill(book, row),
        b'K' => put(book, low(first) as usize, low(second)),
        _ => false,
    }
}
