// Internal: the sums over month tables that no cause refuses (01, 'Month step'). A caller meets each `requires`.
ghost use Rattle.std.specs.Prelude.{◌≡◌, ◌-ℤ◌};
ghost use Rattle.numbers.specs.Rounding.{half_up};
ghost use Rattle.rules.specs.Month.{month_cause, month_figures};
ghost use Rattle.month_step.specs.Rows.{PricedRow, DmRow, row_weighted, row_weights, row_volume};
ghost use Rattle.month_step.specs.Read.{read};

use crate::figures::Figures;
use crate::sizes;
use crate::tables::MonthTables;
use case_figures::Month;

// The two sums that AOSMF divides.
#[derive(Clone, Copy)]
pub struct Sums {
    pub weighted: u64,
    pub weights: u64,
}

// AOSMF over all rows and AEDM of the group asked.
pub fn figures<P: Figures<u32>, V: Figures<i32>>(m: &MonthTables<P, V>) -> Month
    requires { month_cause (read P.figures V.figures m.now) ≡ 0 }
    ensures { result ≡ month_figures (read P.figures V.figures m.now) }
{
    let hours = m.prices.count();
    let mut weighted: u64 = 0;
    let mut weights: u64 = 0;
    for row in 0..m.rows {
        let sums = row_sums(&m.prices, &m.imbalance, (row as usize) * hours);
        weighted += sums.weighted;
        weights += sums.weights;
    }
    let aosmf = average(weighted, weights);
    let aedm = row_volume(&m.imbalance, (m.group as usize) * hours, &m.dm);
    Month { aosmf, aedm }
}

// Σ|imbalance| × price and Σ|imbalance| of the row that starts at a place of the imbalance. A place and an hour add up
// to at most the count, a usize.
pub fn row_sums<P: Figures<u32>, V: Figures<i32>>(prices: &P, imbalance: &V, at: usize) -> Sums
    requires { PricedRow (P.figures prices.now) (V.figures imbalance.now) at }
    ensures weighted { result.weighted ≡ row_weighted (P.figures prices.now) (V.figures imbalance.now) at }
    ensures weights { result.weights ≡ row_weights (P.figures prices.now) (V.figures imbalance.now) at }
{
    let mut weighted: u64 = 0;
    let mut weights: u64 = 0;
    let _ = imbalance.count();
    for h in 0..prices.count() {
        let weight = u64::from(sizes::size(imbalance.figure(at + h)));
        weighted += weight * u64::from(prices.figure(h));
        weights += weight;
    }
    Sums { weighted, weights }
}

// The weighted average, halves up; 0 where the weights are 0.
pub fn average(weighted: u64, weights: u64) -> u64
    ensures { result ≡ half_up weighted weights }
{
    numbers::half_up(weighted, weights)
}

// Σ(imbalance − DM) of the row that starts at a place of the imbalance.
pub fn row_volume<V: Figures<i32>>(imbalance: &V, at: usize, dm: &V) -> i64
    requires { DmRow (V.figures imbalance.now) at (V.figures dm.now) }
    ensures { result ≡ row_volume (V.figures imbalance.now) at (V.figures dm.now) }
{
    let mut volume: i64 = 0;
    let _ = imbalance.count();
    for h in 0..dm.count() {
        volume += difference(imbalance.figure(at + h), dm.figure(h));
    }
    volume
}

// An hour's imbalance less its DM.
fn difference(imbalance: i32, dm: i32) -> i64
    ensures { result ≡ imbalance -ℤ dm }
{
    i64::from(imbalance) - i64::from(dm)
}
