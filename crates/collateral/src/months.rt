// Internal: the month answers of a case, latest first, of which the first n are used (01, 'Collateral').
ghost use Rattle.std.specs.Prelude.{◌≡◌, take};
ghost use Rattle.numbers.specs.Tests.{all};
ghost use Rattle.rules.specs.Collateral.{highest_price, month_ok};
ghost use Rattle.collateral.specs.Months.{lowest_of};

use case_figures::Month;

#[tactic(auto, unfolding(rules::specs::Collateral::month_ok))]
pub fn month_ok(month: Month) -> bool
    ensures { result ≡ month_ok month }
{
    (month.aosmf <= 1000000) & (numbers::magnitude(month.aedm) <= 14900000000)
}

// The month answers that are used: the first n.
pub fn used_months(months: &[Month; 3], used: u32) -> &[Month]
    ensures { result.now ≡ take used months.now }
{
    &months[..months.len().min(used as usize)]
}

pub fn months_ok(months: &[Month]) -> bool
    ensures { result ≡ all month_ok months.now }
{
    months.iter().all(|month| month_ok(*month))
}

// The highest average price of used month answers, 0 where none is used.
pub fn highest_price(months: &[Month]) -> u64
    ensures { result ≡ highest_price months.now }
{
    months.iter().map(|month| month.aosmf).max().unwrap_or(0)
}

// The lowest volume of used month answers, 0 where none is used.
pub fn lowest_volume(months: &[Month]) -> i64
    ensures { result ≡ lowest_of months.now }
{
    months.iter().map(|month| month.aedm).min().unwrap_or(0)
}
