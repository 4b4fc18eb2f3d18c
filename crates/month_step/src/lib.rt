// The month step: a month's average price and a group's imbalance volume (01, 'Month step').
#![tactic(auto)]

pub mod figures;
mod ranges;
mod sizes;
pub mod sums;
pub mod tables;

ghost use Rattle.std.specs.Prelude.{◌≡◌};
ghost use Rattle.rules.specs.Answers.{month_answer_of};
ghost use Rattle.rules.specs.Month.{tables_of, month_answer};
ghost use Rattle.month_step.specs.Read.{read};

use crate::figures::Figures;
use crate::tables::MonthTables;
use case_figures::Month;
use rules::Refusal;

// 11, 12, or AOSMF over all rows and AEDM of the group asked.
pub fn month_step(
    prices: &[u32],
    imbalance: &[i32],
    rows: u32,
    dm: &[i32],
    group: u32,
) -> Result<Month, Refusal>
    ensures { month_answer_of result ≡ month_answer (tables_of prices.now imbalance.now rows dm.now group) }
{
    step(&MonthTables {
        prices,
        imbalance,
        rows,
        dm,
        group,
    })
}

// Internal: the same over tables in words or in bytes.
pub fn step<P: Figures<u32>, V: Figures<i32>>(m: &MonthTables<P, V>) -> Result<Month, Refusal>
    ensures { month_answer_of result ≡ month_answer (read P.figures V.figures m.now) }
{
    ranges::check(m)?;
    Ok(sums::figures(m))
}
