// The calls that change nothing: count, one entry, is it a book.
use caselist::answers::{is_refused, told};
use caselist::rows::{Row, low};
use rules::{Entry, Refusal};

// The figures of an entry in the order of a row.
fn figures(entry: Entry) -> [u64; 6] {
    [
        u64::from(entry.key.party),
        u64::from(entry.key.day),
        u64::from(entry.key.entry_type),
        u64::from(entry.key.counterparty),
        u64::from(entry.status),
        entry.amount,
    ]
}

// Whether it is the entry that a row says, after its number.
fn is_entry(answer: Result<[u64; 6], Refusal>, row: Row) -> bool {
    let [_, party, day, entry_type, counterparty, status, amount, ..] = row.figures;
    answer == Ok([party, day, entry_type, counterparty, status, amount])
}

// Each refuses what is no book.
pub fn no_book(book: &[u32]) -> bool {
    (book::entry(book, 0) == Err(Refusal::NotABook))
        & !book::is_book(book)
        & (book::count(book) == Err(Refusal::NotABook))
}

pub fn asked(book: &[u32], row: Row) -> bool {
    let [first, second, ..] = row.figures;
    match row.call {
        b'E' => is_entry(book::entry(book, low(first)).map(figures), row),
        b'H' => is_refused(book::entry(book, low(first)).map(figures), second, [0; 6]),
        b'C' => told(book::count(book)) == (first, second),
        b'I' => u64::from(book::is_book(book)) == first,
        _ => false,
    }
}
