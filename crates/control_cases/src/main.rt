// Controls of days against the list on standard input, whose figures are worked out by hand from document 01. After each call
// every lent word is compared with the words that the list says.
#![tactic(auto)]

mod writes;

use caselist::answers::is_refused;
use caselist::book_words::{named, standing};
use caselist::pair::Pair;
use caselist::rows::{Row, low};
use caselist::score::Score;
use rules::Counts;

fn open(lent: &mut Pair, row: Row) -> bool {
    writes::head(lent.expected, row);
    caselist::steps::open(lent.book, row).is_ok()
}

fn post(lent: &mut Pair, row: Row) -> bool {
    let [party, day, entry_type, counterparty, amount, ..] = row.figures;
    let entry = standing(party, day, named(entry_type, counterparty), amount);
    writes::append(lent.expected, entry);
    caselist::steps::post(lent.book, row).is_ok()
}

fn withdraw(lent: &mut Pair, row: Row) -> bool {
    let number = low(row.figures[0]);
    writes::restatus(lent.expected, number, 0x01000000);
    book::withdraw(lent.book, number).is_ok()
}

// The counts of a control in the order of a row.
fn figures(counts: Counts) -> [u64; 3] {
    [
        u64::from(counts.first),
        u64::from(counts.second),
        u64::from(counts.cancelled),
    ]
}

// A control that is done leaves a mark, and counts what the row says.
fn done(lent: &mut Pair, row: Row) -> bool {
    let [day, first, second, cancelled, ..] = row.figures;
    writes::append(lent.expected, standing(0, day, 21, 0));
    control::control(lent.book, low(day)).map(figures) == Ok([first, second, cancelled])
}

fn refused(book: &mut [u32], row: Row) -> bool {
    let [day, cause, ..] = row.figures;
    is_refused(control::control(book, low(day)).map(figures), cause, [0; 3])
}

// The calls, by letter. One that must be refused leaves the expected words as they are.
fn call(lent: &mut Pair, row: Row) -> bool {
    match row.call {
        b'O' => open(lent, row),
        b'P' => post(lent, row),
        b'W' => withdraw(lent, row),
        b'C' => done(lent, row),
        b'R' => refused(lent.book, row),
        _ => false,
    }
}

// The test writes lent words, or a call on them is made and compared.
fn line(words: Pair, row: Row, score: &mut Score) {
    let Some(mut lent) = words.first(score.lent()) else {
        return score.check(row.line, false);
    };
    if let b'E' | b'S' | b'K' | b'M' = row.call {
        return writes::write_both(&mut lent, row);
    }
    let answered = call(&mut lent, row);
    lent.compare(row.line, answered, score);
}

fn main(rt: HostRuntime) {
    let mut book = [0u32; 15363];
    let mut expected = [0u32; 15363];
    caselist::score::run(&mut rt.stdin(), rt.stdout(), |row, score| {
        let words = Pair {
            book: &mut book,
            expected: &mut expected,
        };
        line(words, row, score)
    });
}
