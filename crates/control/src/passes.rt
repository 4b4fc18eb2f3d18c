// Internal: one pass of a control over a checked book, and the mark. A caller meets each `requires`.
ghost use Rattle.std.specs.Prelude.{◌≡◌, true, ◌+◌, ◌<◌, ◌≤◌, length};
ghost use Rattle.numbers.specs.Sums.{count};
ghost use Rattle.rules.specs.Entry.{key_of, mark_type, last_party, last_day, record_in};
ghost use Rattle.rules.specs.Words.{is_book, entries, count_of, room_in};
ghost use Rattle.rules.specs.Stores.{posted};
ghost use Rattle.rules.specs.Control.{is_to_cancel};
ghost use Rattle.repeated_pairs.specs.Flags.{flagged};
ghost use Rattle.detection.specs.Passes.{is_second};
ghost use Rattle.detection.specs.Tables.{of_pass};
ghost use Rattle.control.specs.Passes.{cancelled_words, pass_of};

use detection::Pass;
use repeated_pairs::parties::Flags;
use rules::layout::{BILATERAL, CANCELLED, MARK, STANDING};
use rules::{Entry, Key};
use words::Book;

// The parties detected in a pass and the entries cancelled.
#[derive(Clone, Copy)]
pub struct Passed {
    pub parties: u32,
    pub entries: u32,
}

// A standing bilateral sale of the day, counterparty above 0, of a flagged party.
fn is_to_cancel(e: Entry, day: u32, flags: &Flags) -> bool
    requires { e.key.party ≤ last_party }
    ensures { result ≡ is_to_cancel (flagged flags.now) day (record_in e) }
{
    (e.status == STANDING)
        & (e.key.day == day)
        & ((e.key.entry_type == BILATERAL) & (0 < e.key.counterparty))
        & flags.has(e.key.party)
}

// The sales of flagged parties become cancelled, and are counted. The test has a use beside the branch, so that the compiler
// makes one branch of it and not one of each part: those on type and day are mispredicted. By number, as the store names
// an entry; the words change under it, so no `Book` is lent here.
fn cancel(book: &mut [u32], day: u32, flags: &Flags) -> u32
    requires { is_book book.old ≡ true }
    ensures cancelled { result ≡ count (is_to_cancel (flagged flags.now) day) (entries book.old) }
    ensures words { book.new ≡ cancelled_words (flagged flags.now) day book.old }
{
    let count = Book::known(book).count();
    let mut n = 0;
    for i in 0..count {
        let e = Book::known(book).entry(i);
        let cancelled = is_to_cancel(e, day, flags);
        if cancelled {
            entry_stores::set_status(book, i as usize, CANCELLED);
        }
        n += u32::from(cancelled);
    }
    n
}

// One pass by a table: its parties are counted, and their sales cancelled together. Not inlined, so that a pass that has nobody
// takes no stack for the flags.
#[inline(never)]
fn pass_by_table(book: &mut [u32], day: u32, pass: Pass) -> Passed
    requires { is_book book.old ≡ true }
    ensures counts { result ≡ pass_of (of_pass (is_second pass) book.old day) day book.old }
    ensures words { book.new ≡ cancelled_words (of_pass (is_second pass) book.old day) day book.old }
{
    let flags = detection::flag_parties(&Book::known(book), day, pass);
    let parties = flags.count();
    let entries = cancel(book, day, &flags);
    Passed { parties, entries }
}

// A pass. One that has nobody counts none, cancels nothing and needs no table.
pub fn run_pass(book: &mut [u32], day: u32, pass: Pass) -> Passed
    requires { is_book book.old ≡ true }
    ensures counts { result ≡ pass_of (of_pass (is_second pass) book.old day) day book.old }
    ensures words { book.new ≡ cancelled_words (of_pass (is_second pass) book.old day) day book.old }
{
    if empty_passes::has_nobody(&Book::known(book), day, pass) {
        return Passed {
            parties: 0,
            entries: 0,
        };
    }
    pass_by_table(book, day, pass)
}

// The mark of a day takes the next place.
pub fn append_mark(book: &mut [u32], day: u32)
    requires { (count_of book.old < room_in (length book.old)) × (day ≤ last_day) }
    ensures { book.new ≡ posted book.old (key_of 0 day mark_type 0) 0 }
{
    let mark = Key {
        party: 0,
        day,
        entry_type: MARK,
        counterparty: 0,
    };
    entry_stores::append(book, mark, 0);
}
