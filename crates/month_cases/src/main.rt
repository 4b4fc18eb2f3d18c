// The month step, the sales ceiling, first days of months and |x| against the list on standard input, whose figures are worked
// out by hand from documents 01 and 02.
#![tactic(auto)]

mod table;

use case_figures::Month;
use caselist::answers::{is_refused, told};
use caselist::rows::{Row, low, signed_low};
use caselist::score::Score;
use rules::Refusal;
use table::Table;

// The tables of a month, so far.
#[derive(Drop)]
struct Tables<'a> {
    prices: Table<'a, u32>,
    imbalance: Table<'a, i32>,
    dm: Table<'a, i32>,
}

// The average price and the imbalance of a month.
fn figures(month: Month) -> (u64, i64) {
    (month.aosmf, month.aedm)
}

// The month step on the tables as they stand, where the list has not more figures than they have places.
fn stepped(tables: &Tables, row: Row) -> Option<Result<(u64, i64), Refusal>> {
    let [rows, group, ..] = row.figures;
    let prices = tables.prices.figures()?;
    let imbalance = tables.imbalance.figures()?;
    let dm = tables.dm.figures()?;
    let answer = month_step::month_step(prices, imbalance, low(rows), dm, low(group));
    Some(answer.map(figures))
}

fn has_figures(answer: Result<(u64, i64), Refusal>, row: Row) -> bool {
    let [_, _, aosmf, aedm, ..] = row.figures;
    answer == Ok((aosmf, aedm.cast_signed()))
}

fn has_cause(answer: Result<(u64, i64), Refusal>, row: Row) -> bool {
    is_refused(answer, row.figures[2], (0, 0))
}

// An offer beside N, V and G: the answer, and 1 where it is recordable.
fn offered(row: Row) -> bool {
    let [offer, bilateral, futures, capacity, answer, recordable, ..] = row.figures;
    let got = ceiling::ceiling(low(offer), low(bilateral), low(futures), low(capacity));
    told(got) == (answer, recordable)
}

// A month: the answer, and its first day.
fn begun(row: Row) -> bool {
    let [month, answer, day, ..] = row.figures;
    told(first_day::first_day(low(month))) == (answer, day)
}

// The size of a signed figure.
fn sized(row: Row) -> bool {
    let [figure, size, ..] = row.figures;
    numbers::magnitude(figure.cast_signed()) == size
}

// Three figures of a row, each so many times, as a table of this type has them.
fn add<T: Copy, F: Fn(u64) -> T>(table: &mut Table<T>, row: Row, figure: F)
    requires { F.IsAlwaysCallable figure }
{
    let [n, first, m, second, k, third, ..] = row.figures;
    table.add(n, figure(first));
    table.add(m, figure(second));
    table.add(k, figure(third));
}

fn clear(tables: &mut Tables) {
    tables.prices.clear();
    tables.imbalance.clear();
    tables.dm.clear();
}

// The tables without figures, or with more of them; or a question, which is compared.
fn line(tables: &mut Tables, row: Row, score: &mut Score) {
    let holds = match row.call {
        b'N' => return clear(tables),
        b'P' => return add(&mut tables.prices, row, low),
        b'I' => return add(&mut tables.imbalance, row, signed_low),
        b'S' => return add(&mut tables.dm, row, signed_low),
        b'J' => return tables.imbalance.count_up(row.figures[0]),
        b'T' => return tables.dm.count_up(row.figures[0]),
        b'Q' => stepped(tables, row).is_some_and(|answer| has_figures(answer, row)),
        b'R' => stepped(tables, row).is_some_and(|answer| has_cause(answer, row)),
        b'O' => offered(row),
        b'D' => begun(row),
        b'A' => sized(row),
        _ => false,
    };
    score.check(row.line, holds);
}

fn main(rt: HostRuntime) {
    let mut prices = [0u32; 750];
    let mut imbalance = [0i32; 47680];
    let mut dm = [0i32; 750];
    let mut tables = Tables {
        prices: Table::new(&mut prices),
        imbalance: Table::new(&mut imbalance),
        dm: Table::new(&mut dm),
    };
    caselist::score::run(&mut rt.stdin(), rt.stdout(), |row, score| {
        line(&mut tables, row, score)
    });
}
