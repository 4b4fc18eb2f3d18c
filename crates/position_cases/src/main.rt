// Both balances and the tally against the list on standard input, whose figures are worked out by hand from document 01.
#![tactic(auto)]

use caselist::answers::is_refused;
use caselist::rows::{Row, low};
use caselist::score::Score;
use rules::{PartyDay, Refusal, SUMS};

// A call on the party and the day of a row.
fn ask<T, F: FnOnce(&[u32], u32, u32) -> T>(call: F, book: &[u32], row: Row) -> T
    requires { F.IsAlwaysCallable call }
{
    let [party, day, ..] = row.figures;
    call(book, low(party), low(day))
}

fn balances(book: &[u32], row: Row) -> [Result<i64, Refusal>; 2] {
    [
        ask(position::day_ahead, book, row),
        ask(position::delivery, book, row),
    ]
}

// The balance by sign and size, and whether it is detected.
fn is_balance(answer: Result<i64, Refusal>, row: Row) -> bool {
    let [_, _, minus, size, detected, ..] = row.figures;
    answer.is_ok_and(|balance| {
        ((balance < 0) == (minus == 1))
            & (balance.unsigned_abs() == size)
            & (position::detected(balance) == (detected == 1))
    })
}

// The sum of a type, or B where the type is 0.
fn sum(got: PartyDay, entry_type: u32) -> u64 {
    match entry_type {
        0 => got.bought,
        1..=16 => got.tally.sums[entry_type as usize - 1],
        22 => got.tally.sums[16],
        _ => 0,
    }
}

fn has_sum(got: PartyDay, row: Row) -> bool {
    let [party, _, entry_type, size, ..] = row.figures;
    (u64::from(got.tally.party) == party) & (sum(got, low(entry_type)) == size)
}

// Neither a sum nor B.
fn has_none(got: PartyDay, row: Row) -> bool {
    (u64::from(got.tally.party) == row.figures[0])
        & (got.bought == 0)
        & got.tally.sums.iter().all(|sum| *sum == 0)
}

fn figures(got: PartyDay) -> (u32, u64, [u64; SUMS]) {
    let sums = got.tally.sums;
    (got.tally.party, got.bought, sums)
}

// The cause, and every figure of the tally zero.
fn tally_refused(book: &[u32], row: Row) -> bool {
    let answer = ask(position::tally, book, row);
    is_refused(answer.map(figures), row.figures[2], (0, 0, [0; SUMS]))
}

// What a row asks of one call, or a step that makes the book.
fn asked(book: &mut [u32], row: Row) -> bool {
    match row.call {
        b'D' => is_balance(ask(position::day_ahead, book, row), row),
        b'E' => is_balance(ask(position::delivery, book, row), row),
        b'S' => ask(position::tally, book, row).is_ok_and(|got| has_sum(got, row)),
        b'N' => ask(position::tally, book, row).is_ok_and(|got| has_none(got, row)),
        _ => caselist::steps::make(book, row),
    }
}

// B: both balances; X: each of the three calls is refused.
fn line(words: &mut [u32], row: Row, score: &mut Score) {
    let Some(book) = words.get_mut(..score.lent()) else {
        return score.check(row.line, false);
    };
    match row.call {
        b'B' => {
            for balance in balances(book, row) {
                score.check(row.line, is_balance(balance, row));
            }
        }
        b'X' => {
            score.check(row.line, tally_refused(book, row));
            for balance in balances(book, row) {
                score.check(row.line, is_refused(balance, row.figures[2], 0));
            }
        }
        _ => score.check(row.line, asked(book, row)),
    }
}

fn main(rt: HostRuntime) {
    let mut words = [0u32; 15363];
    caselist::score::run(&mut rt.stdin(), rt.stdout(), |row, score| {
        line(&mut words, row, score)
    });
}
