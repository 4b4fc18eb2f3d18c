// Internal: the closed days of a book in a table, for files of many lines. A caller meets each `requires`.
#![tactic(auto)]

ghost use Rattle.std.specs.Prelude.{◌≡◌, true, false, ◌||◌, ℕ, ◌<◌, length, get_or};
ghost use Rattle.numbers.specs.Tests.{any};
ghost use Rattle.rules.specs.Entry.{is_mark, day_places};
ghost use Rattle.rules.specs.Words.{is_book, entries};
ghost use Rattle.rules.specs.Book.{is_closed};

use rules::layout::MARK;
use words::Book;

// The closed days of a book, once, so that no line searches for them again.
pub fn close_days(book: &Book, closed: &mut [bool])
    requires { length closed.old ≡ day_places }
    ensures { (d : ℕ) → d < day_places → get_or closed.new d false ≡ get_or closed.old d false || is_closed d (entries book.now) }
{
    for i in 0..book.count() {
        let entry = book.entry_words(i);
        if entry.entry_type() == MARK {
            closed[entry.day() as usize] = true;
        }
    }
}

// Whether an entry is a mark: without one no day is closed. A caller learns here that the words are a book.
pub fn has_mark(book: &Book) -> bool
    ensures mark { result ≡ any is_mark (entries book.now) }
    ensures book { is_book book.now ≡ true }
{
    for n in 0..book.count() {
        if book.entry_words(n).entry_type() == MARK {
            return true;
        }
    }
    false
}

// A day past the last flag is not closed.
pub fn flag_of(closed: &[bool], day: u32) -> bool
    ensures { result ≡ get_or closed.now day false }
{
    closed.get(day as usize).copied().unwrap_or(false)
}
