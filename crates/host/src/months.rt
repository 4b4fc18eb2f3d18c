// The month step on bytes (document 01, 'Month step').
ghost use Rattle.std.specs.Prelude.{◌≡◌};
ghost use Rattle.month_bytes.specs.Tables.{month_on_bytes};

use rules::MonthAnswer;

// AOSMF and AEDM of a group's month, out of three tables.
#[unsafe(no_mangle)]
pub extern "C" fn fanzsoreb_month(
    prices: &[u8],
    imbalance: &[u8],
    rows: u32,
    dm: &[u8],
    group: u32,
) -> MonthAnswer
    ensures { result ≡ month_on_bytes prices.now imbalance.now rows dm.now group }
{
    month_bytes::month_on(prices, imbalance, rows, dm, group).into()
}
