// The month step on tables in lent bytes, little-endian (document 01, 'Month step').
#![tactic(auto)]

ghost use Rattle.std.specs.Prelude.{◌≡◌};
ghost use Rattle.rules.specs.Answers.{month_answer_of};
ghost use Rattle.month_bytes.specs.Tables.{month_on_bytes};

use case_figures::Month;
use figures::InBytes;
use month_step::tables::MonthTables;
use rules::Refusal;
use word_bytes::is_whole;

mod figures;

// 11 where a length is no multiple of 4, or the step on the figures as they lie.
pub fn month_on(
    prices: &[u8],
    imbalance: &[u8],
    rows: u32,
    dm: &[u8],
    group: u32,
) -> Result<Month, Refusal>
    ensures { month_answer_of result ≡ month_on_bytes prices.now imbalance.now rows dm.now group }
{
    if !(is_whole(prices) & is_whole(imbalance) & is_whole(dm)) {
        return Err(Refusal::BadLength);
    }
    month_step::step(&MonthTables {
        prices: InBytes { bytes: prices },
        imbalance: InBytes { bytes: imbalance },
        rows,
        dm: InBytes { bytes: dm },
        group,
    })
}
