// Internal: the lengths and ranges of month tables (01, 'Month step', 'Why a call comes back').
ghost use Rattle.std.specs.Prelude.{◌≡◌, Bool};
ghost use Rattle.numbers.specs.Tests.{all};
ghost use Rattle.rules.specs.Refusals.{answer_of};
ghost use Rattle.rules.specs.Month.{volume_ok, month_cause};
ghost use Rattle.month_step.specs.Ranges.{lengths_agree, places_ok, Tests};
ghost use Rattle.month_step.specs.Read.{read};

use crate::figures::Figures;
use crate::sizes;
use crate::tables::MonthTables;
use rules::Refusal;
use rules::bounds::{MOST_HOURS, MOST_IMBALANCE, MOST_PRICE, MOST_ROWS};

// The lowest cause that holds: 11, 12, or none. Lengths that do not agree, and rows or a group out of range, are refused
// before a figure is read.
pub fn check<P: Figures<u32>, V: Figures<i32>>(m: &MonthTables<P, V>) -> Result<(), Refusal>
    ensures { answer_of result ≡ month_cause (read P.figures V.figures m.now) }
{
    if !lengths_agree(m.prices.count(), m.imbalance.count(), m.rows, m.dm.count()) {
        return Err(Refusal::BadLength);
    }
    if !places_ok(m.rows, m.group) {
        return Err(Refusal::BadFigure);
    }
    if !(each(&m.prices, |price| price <= MOST_PRICE)
        & each(&m.imbalance, volume_ok)
        & each(&m.dm, volume_ok))
    {
        return Err(Refusal::BadFigure);
    }
    Ok(())
}

// With at most 745 hours no number of rows makes the product wrap.
fn lengths_agree(hours: usize, volumes: usize, rows: u32, dms: usize) -> bool
    ensures { result ≡ lengths_agree hours volumes rows dms }
{
    if hours > MOST_HOURS {
        return false;
    }
    (volumes == (rows as usize) * hours) & (dms == hours)
}

// The number of groups, and the one asked.
fn places_ok(rows: u32, group: u32) -> bool
    ensures { result ≡ places_ok rows group }
{
    (1 <= rows) & (rows <= MOST_ROWS) & (group < rows)
}

// Whether a test holds of each figure. No branch in the loop, as legal tables are read to the end. By place, since
// words and bytes are both read so.
fn each<T, F: Figures<T>, C: Fn(T) -> bool>(figures: &F, test: C) -> bool
    requires { C.IsAlwaysCallable test }
    ensures { (ok : T → Bool) → Tests (C.post test) ok → result ≡ all ok (F.figures figures.now) }
{
    let mut ok = true;
    for i in 0..figures.count() {
        ok = ok & test(figures.figure(i));
    }
    ok
}

// An hour's imbalance or DM: within ±10,000,000.
fn volume_ok(volume: i32) -> bool
    ensures { result ≡ volume_ok volume }
{
    u64::from(sizes::size(volume)) <= MOST_IMBALANCE
}
