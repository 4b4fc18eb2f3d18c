// Runs the list of calls on standard input against the book. Each call's answer, and every word of the lent slice after it,
// is compared with what the list says; the list is written from document 01 by hand.
#![tactic(auto)]

mod reads;
mod writes;

use caselist::answers::{is_refused, told};
use caselist::book_words::{put, word};
use caselist::pair::Pair;
use caselist::rows::{Row, low};
use caselist::score::Score;
use rules::{Key, Refusal};

fn posted(lent: &mut Pair, row: Row) -> bool {
    writes::append(lent.expected, row);
    told(caselist::steps::post(lent.book, row)) == (0, row.figures[5])
}

fn post_refused(book: &mut [u32], row: Row) -> bool {
    is_refused(caselist::steps::post(book, row), row.figures[5], 0)
}

fn withdrawn(lent: &mut Pair, row: Row) -> bool {
    let [number, figures, ..] = row.figures;
    let _ = put(lent.expected, 5 + 5 * (low(number) as usize), low(figures));
    book::withdraw(lent.book, low(number)).is_ok()
}

fn withdrawal_refused(book: &mut [u32], row: Row) -> bool {
    let [number, cause, ..] = row.figures;
    is_refused(book::withdraw(book, low(number)), cause, ())
}

fn opened(lent: &mut Pair, row: Row) -> bool {
    let [_, _, count, coefficient, tolerance, ..] = row.figures;
    writes::head(lent.expected, [count, coefficient, tolerance]);
    caselist::steps::open(lent.book, row).is_ok()
}

fn opened_default(lent: &mut Pair, row: Row) -> bool {
    let [count, coefficient, tolerance, ..] = row.figures;
    writes::head(lent.expected, [count, coefficient, tolerance]);
    opening::open_default(lent.book).is_ok()
}

// The calls that change nothing refuse it, and so do a post and a withdrawal.
fn no_book(book: &mut [u32]) -> bool {
    let key = Key {
        party: 1,
        day: 9000,
        entry_type: 1,
        counterparty: 0,
    };
    let read = reads::no_book(book);
    let posted = book::post(book, key, 5);
    let withdrawn = book::withdraw(book, 0);
    read & (posted == Err(Refusal::NotABook)) & (withdrawn == Err(Refusal::NotABook))
}

// With one word changed in both, the slice is judged, and no word of it changes. Then the word is put back.
fn changed<F: FnOnce(&mut [u32]) -> bool>(lent: &mut Pair, row: Row, judge: F) -> bool
    requires { F.IsAlwaysCallable judge }
{
    let [at, w, ..] = row.figures;
    let at = low(at) as usize;
    let old = word(lent.expected, at);
    writes::both(lent, at, low(w));
    let judged = judge(lent.book);
    let same = lent.is_same();
    writes::both(lent, at, old);
    judged & same
}

// The calls, by letter. A call that must be refused leaves the expected words as they are.
fn call(lent: &mut Pair, row: Row) -> bool {
    match row.call {
        b'P' => posted(lent, row),
        b'Q' => post_refused(lent.book, row),
        b'W' => withdrawn(lent, row),
        b'V' => withdrawal_refused(lent.book, row),
        b'O' => opened(lent, row),
        b'N' => is_refused(caselist::steps::open(lent.book, row), row.figures[2], ()),
        b'D' => opened_default(lent, row),
        b'U' => is_refused(opening::open_default(lent.book), row.figures[0], ()),
        b'K' => changed(lent, row, |book| book::is_book(book)),
        b'X' => changed(lent, row, no_book),
        _ => reads::asked(lent.book, row),
    }
}

// The test writes words, lent or not, or a call is made and compared.
fn line(mut words: Pair, row: Row, score: &mut Score) {
    if let b'S' | b'R' | b'F' = row.call {
        return writes::write_both(&mut words, row);
    }
    let Some(mut lent) = words.first(score.lent()) else {
        return score.check(row.line, false);
    };
    let answered = call(&mut lent, row);
    lent.compare(row.line, answered, score);
}

fn main(rt: HostRuntime) {
    let mut book = [0u32; 15403];
    let mut expected = [0u32; 15403];
    caselist::score::run(&mut rt.stdin(), rt.stdout(), |row, score| {
        let words = Pair {
            book: &mut book,
            expected: &mut expected,
        };
        line(words, row, score)
    });
}
