// Month reports against the list on standard input, whose figures are worked out by hand from document 02, T-01.
#![tactic(auto)]

use caselist::rows::{Row, low};
use caselist::score::Score;
use rules::{LINE_SUMS, MonthReport, REPORT_FIGURES};

// The place of a type in a line.
fn place(entry_type: u64) -> usize {
    match entry_type {
        22 => 20,
        _ => low(entry_type.wrapping_sub(1)) as usize,
    }
}

// The sum of a type on a line; 0 past the lines.
fn has_sum(got: &MonthReport, row: Row) -> bool {
    let [_, line, entry_type, size, ..] = row.figures;
    let at = (LINE_SUMS * (low(line) as usize)).wrapping_add(place(entry_type));
    got.lines.get(at).copied().unwrap_or(0) == size
}

// So many figures from a place on, together.
fn together(got: &MonthReport, start: usize, count: usize) -> u64 {
    let figures = got.lines.iter().skip(start).take(count);
    figures.fold(0, |sum, figure| sum.wrapping_add(*figure))
}

fn has_line(got: &MonthReport, row: Row) -> bool {
    let [_, line, size, ..] = row.figures;
    together(got, LINE_SUMS * (low(line) as usize), LINE_SUMS) == size
}

fn has_days(got: &MonthReport, row: Row) -> bool {
    let [month, first_day, days, size, ..] = row.figures;
    (got.answer == 0)
        & (u64::from(got.month) == month)
        & (u64::from(got.first_day) == first_day)
        & (u64::from(got.days) == days)
        & (together(got, 0, REPORT_FIGURES) == size)
}

// The cause, and every other figure zero.
fn is_refused(got: &MonthReport, row: Row) -> bool {
    (u64::from(got.answer) == row.figures[1])
        & (got.month == 0)
        & (got.first_day == 0)
        & (got.days == 0)
        & (together(got, 0, REPORT_FIGURES) == 0)
}

fn report(book: &[u32], row: Row) -> MonthReport {
    month_report::month_report(book, low(row.figures[0]))
}

fn controlled(book: &mut [u32], row: Row) -> bool {
    control::control(book, low(row.figures[0])).is_ok()
}

// What a row asks of a report, or a step that makes the book.
fn asked(book: &mut [u32], row: Row) -> bool {
    match row.call {
        b'D' => has_days(&report(book, row), row),
        b'S' => has_sum(&report(book, row), row),
        b'T' => has_line(&report(book, row), row),
        b'X' => is_refused(&report(book, row), row),
        b'C' => controlled(book, row),
        _ => caselist::steps::make(book, row),
    }
}

fn main(rt: HostRuntime) {
    let mut book = [0u32; 15363];
    caselist::score::run(&mut rt.stdin(), rt.stdout(), |row, score| {
        score.check(row.line, asked(&mut book, row))
    });
}
