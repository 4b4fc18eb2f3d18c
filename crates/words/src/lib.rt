// Internal: a checked book over its words, for the crates above it. A caller meets each `requires`.
#![tactic(auto)]

ghost use Rattle.std.specs.Prelude.{◌≡◌, true, List, ℕ, ◌+◌, ◌*◌, ◌<◌, ◌≤◌, leb, length, drop, false, IfOk, IfErr, OnOk, OnErr};
ghost use Rattle.rules.specs.Refusals.{answer_of};
ghost use Rattle.rules.specs.Entry.{key_in, record_in, entry_of, legal};
ghost use Rattle.rules.specs.Words.{entry_ok, entries_ok, room_in, count_of, coefficient_of, tolerance_of, is_book, entries};
ghost use Rattle.rules.specs.Book.{is_closed, shut_to, place_of, entry_at};
ghost use Rattle.entry_words.specs.Words.{entry_in};
ghost use Rattle.words.specs.Parts.{kept, words_at};

use entry_words::EntryWords;
use rules::bounds::{MOST_COEFFICIENT, MOST_ENTRIES, MOST_TOLERANCE};
use rules::layout::{ENTRY_WORDS, HEAD_WORDS, KIND, MARK, STANDING};
use rules::{Entry, Key, Refusal};
use std::marker::Model;

// A book that was checked: in contracts it stands for its words.
#[derive(Drop)]
pub struct Book<'a> {
    words: &'a [u32],
}

impl<'a> Model for Book<'a> {
    ghost Value = { List ℕ };

    ghost view = { λ book. book.words.now };

    ghost invariant = { λ book. is_book book.words.now ≡ true };
}

// The place of an entry.
pub fn place_of(number: u32) -> usize
    ensures { result ≡ place_of number }
{
    HEAD_WORDS + ENTRY_WORDS * (number as usize)
}

// The words of the entry at a place.
fn words_at(words: &[u32], at: usize) -> EntryWords
    requires { at + 5 ≤ length words.now }
    ensures { result ≡ words_at words.now at }
{
    EntryWords {
        party: words[at],
        day: words[at + 1],
        figures: words[at + 2],
        low: words[at + 3],
        high: words[at + 4],
    }
}

// Each entry is checked once, where it lies.
pub fn entries_ok(words: &[u32], count: usize) -> bool
    requires { 3 + 5 * count ≤ length words.now }
    ensures { result ≡ entries_ok count (drop 3 words.now) }
{
    for i in 0..count {
        if !words_at(words, HEAD_WORDS + ENTRY_WORDS * i).is_ok() {
            return false;
        }
    }
    true
}

// How many entries a slice of this length has room for.
pub fn room(lent: usize) -> usize
    ensures { result ≡ room_in lent }
{
    if lent < HEAD_WORDS {
        return 0;
    }
    MOST_ENTRIES.min((lent - HEAD_WORDS) / ENTRY_WORDS)
}

// The number of entries that a book's first word gives.
pub fn count_of(words: &[u32]) -> u32
    requires { 3 ≤ length words.now }
    ensures { result ≡ count_of words.now }
{
    words[0] % KIND
}

// Whether the words are a book.
fn is_book(words: &[u32]) -> bool
    ensures { result ≡ is_book words.now }
{
    if words.len() < HEAD_WORDS {
        return false;
    }
    let count = count_of(words);
    let head = (words[0] / KIND == 6)
        & (words[1] / KIND == 7)
        & (words[2] / KIND == 8)
        & (words[1] % KIND <= MOST_COEFFICIENT)
        & (words[2] % KIND <= MOST_TOLERANCE)
        & (count as usize <= room(words.len()));
    if !head {
        return false;
    }
    entries_ok(words, count as usize)
}

impl<'a> Book<'a> {
    // The book that the words are, checked once a call.
    pub fn of(words: &'a [u32]) -> Result<Book<'a>, Refusal>
        ensures ok { IfOk result (λ book. book ≡ words.now) }
        ensures book { OnOk result (is_book words.now ≡ true) }
        ensures err { IfErr result (λ refusal. refusal ≡ Refusal.NotABook) }
        ensures no_book { OnErr result (is_book words.now ≡ false) }
    {
        if !is_book(words) {
            return Err(Refusal::NotABook);
        }
        Ok(Book { words })
    }

    // The book that words are which a call has checked before.
    pub fn known(words: &'a [u32]) -> Book<'a>
        requires { is_book words.now ≡ true }
        ensures { result ≡ words.now }
    {
        Book { words }
    }

    // The number of entries, of every status. A caller learns here that the words are a book.
    pub fn count(&self) -> u32
        ensures count { result ≡ count_of self.now }
        ensures book { is_book self.now ≡ true }
    {
        count_of(self.words)
    }

    pub fn coefficient(&self) -> u32
        ensures { result ≡ coefficient_of self.now }
    {
        self.words[1] % KIND
    }

    pub fn tolerance(&self) -> u32
        ensures { result ≡ tolerance_of self.now }
    {
        self.words[2] % KIND
    }

    // Whether the slice has room for so many entries more.
    pub fn has_room(&self, places: u32) -> bool
        ensures { result ≡ leb (count_of self.now + places) (room_in (length self.now)) }
    {
        self.count() as usize + places as usize <= room(self.words.len())
    }

    // The words of an entry by its number. Scans go by number, `for i in 0..book.count()`: it is what stores and laws name an entry
    // by, and an iterator of our own would be no plainer in a loop.
    pub fn entry_words(&self, number: u32) -> EntryWords
        requires { number < count_of self.now }
        ensures words { result ≡ words_at self.now (place_of number) }
        ensures entry { entry_in result ≡ entry_at self.now number }
        ensures legal { legal (entry_in result) ≡ true }
    {
        words_at(self.words, place_of(number))
    }

    pub fn entry(&self, number: u32) -> Entry
        requires { number < count_of self.now }
        ensures entry { result ≡ entry_of (entry_at self.now number) }
        ensures legal { legal (record_in result) ≡ true }
    {
        self.entry_words(number).entry()
    }

    // A day with a mark (01, 'Control of a day').
    pub fn is_closed(&self, day: u32) -> bool
        ensures { result ≡ is_closed day (entries self.now) }
    {
        for i in 0..self.count() {
            if self.entry_words(i).is_mark_of(day) {
                return true;
            }
        }
        false
    }

    // Whether the day is closed to an entry. It is looked up for a bilateral sale only.
    pub fn shut_to(&self, key: Key) -> bool
        ensures { result ≡ shut_to (key_in key) (entries self.now) }
    {
        if !entry_checks::is_bilateral(key) {
            return false;
        }
        self.is_closed(key.day)
    }

    // Why an entry cannot be withdrawn.
    pub fn kept(&self, e: Entry) -> Result<(), Refusal>
        ensures { answer_of result ≡ kept (record_in e) (entries self.now) }
    {
        if e.status != STANDING {
            return Err(Refusal::NoEntry);
        }
        if e.key.entry_type == MARK {
            return Err(Refusal::NoEntry);
        }
        if self.shut_to(e.key) {
            return Err(Refusal::DayClosed);
        }
        Ok(())
    }
}
