// Control of a day (document 01, 'Control of a day').
#![tactic(auto)]

ghost use Rattle.std.specs.Prelude.{◌≡◌, Result, Ok};
ghost use Rattle.rules.specs.Refusals.{answer_of};
ghost use Rattle.rules.specs.Answers.{controlled_of};
ghost use Rattle.rules.specs.Calls.{cause_of, words_after, control_answer};
ghost use Rattle.rules.specs.Calls as calls;

use detection::Pass;
use rules::{Counts, Refusal};
use words::Book;

mod passes;

// Whether a day of a book can be controlled.
fn check(book: &[u32], day: u32) -> Result<(), Refusal>
    ensures { answer_of result ≡ cause_of book.now (calls.control day) }
{
    let book = Book::of(book)?;
    if !entry_checks::day_ok(day) {
        return Err(Refusal::BadDay);
    }
    if book.is_closed(day) {
        return Err(Refusal::DayClosed);
    }
    if !book.has_room(1) {
        return Err(Refusal::NoRoom);
    }
    Ok(())
}

// First pass: every party, by the book at entry. Second pass: the buyers of repeated pairs, by the book after the first.
fn run(book: &mut [u32], day: u32) -> Counts
    requires { cause_of book.old (calls.control day) ≡ 0 }
    ensures answer { controlled_of (Ok result) ≡ control_answer book.old day }
    ensures words { book.new ≡ words_after book.old (calls.control day) }
{
    let first = passes::run_pass(book, day, Pass::First);
    let second = passes::run_pass(book, day, Pass::Second);
    passes::append_mark(book, day);
    Counts {
        first: first.parties,
        second: second.parties,
        cancelled: first.entries + second.entries,
    }
}

// Cancels the bilateral sales of detected parties and closes the day.
pub fn control(book: &mut [u32], day: u32) -> Result<Counts, Refusal>
    ensures answer { controlled_of result ≡ control_answer book.old day }
    ensures words { book.new ≡ words_after book.old (calls.control day) }
{
    check(book, day)?;
    Ok(run(book, day))
}
