// Internal: entries stored in a book's words, for the crates above it. A caller meets each `requires`.
#![tactic(auto)]

ghost use Rattle.std.specs.Prelude.{◌≡◌, true, ◌+◌, ◌<◌, ◌≤◌, length, drop};
ghost use Rattle.rules.specs.Entry.{key_in, record_of, legal, standing};
ghost use Rattle.rules.specs.Words.{entry_ok, room_in, count_of};
ghost use Rattle.rules.specs.Book.{place_of};
ghost use Rattle.rules.specs.Stores.{stored_at, posted, restatused};

use rules::Key;
use rules::layout::{
    COUNT_WORD, DAY_WORD, ENTRY_WORDS, FIGURES_WORD, HEAD_WORDS, HIGH_WORD, LOW_AMOUNT, LOW_WORD,
    PARTY_WORD, STATUS, TYPES,
};

// Stores the five words of a standing entry at a place.
pub fn store_entry(book: &mut [u32], at: usize, key: Key, amount: u64)
    requires at_in_bounds { at + 5 ≤ length book.old }
    requires amount_value { legal (record_of (key_in key) standing amount) ≡ true }
    ensures { book.new ≡ stored_at book.old at (key_in key) amount }
{
    book[at] = PARTY_WORD + key.party;
    book[at + 1] = DAY_WORD + key.day;
    book[at + 2] = FIGURES_WORD + (key.entry_type + key.counterparty * TYPES);
    book[at + 3] = LOW_WORD + (amount % LOW_AMOUNT) as u32;
    book[at + 4] = HIGH_WORD + (amount / LOW_AMOUNT) as u32;
}

// Appends a standing entry: its words at the next place, and last the count.
pub fn append(book: &mut [u32], key: Key, amount: u64)
    requires book_bound { count_of book.old < room_in (length book.old) }
    requires amount_value { legal (record_of (key_in key) standing amount) ≡ true }
    ensures { book.new ≡ posted book.old (key_in key) amount }
{
    let count = words::count_of(book);
    let at = words::place_of(count);
    store_entry(book, at, key, amount);
    book[0] = COUNT_WORD + (count + 1);
}

// Gives a standing entry another status; the rest of its kind 3 word stays.
pub fn set_status(book: &mut [u32], number: usize, status: u32)
    requires number_in_bounds { place_of number + 5 ≤ length book.old }
    requires book_value { entry_ok (drop (place_of number) book.old) ≡ true }
    requires status_bound { status ≤ 2 }
    ensures { book.new ≡ restatused status book.old number }
{
    let at = HEAD_WORDS + ENTRY_WORDS * number + 2;
    book[at] = book[at] + status * STATUS;
}
