// Calls on numbers alone.
ghost use Rattle.std.specs.Prelude.{◌≡◌, ◌+◌, ◌*◌};
ghost use Rattle.rules.specs.Ceiling.{ceiling_answer};
ghost use Rattle.rules.specs.FirstDay.{first_day_answer};

use rules::{CeilingAnswer, FirstDayAnswer};

// Major × 10,000 + minor × 100 + patch.
const VERSION: u32 = 20200;

// The version of the calls.
#[unsafe(no_mangle)]
pub extern "C" fn fanzsoreb_version() -> u32
    ensures { result ≡ 2 * 10000 + 2 * 100 + 0 }
{
    VERSION
}

// 12, or whether an offer is recordable (01, 'Sales ceiling').
#[unsafe(no_mangle)]
pub extern "C" fn fanzsoreb_ceiling(
    offer: u32,
    bilateral: u32,
    futures: u32,
    capacity: u32,
) -> CeilingAnswer
    ensures { result ≡ ceiling_answer offer bilateral futures capacity }
{
    ceiling::ceiling(offer, bilateral, futures, capacity).into()
}

// 12, or the first day of a month of the years 2000 to 2399 (02, T-08).
#[unsafe(no_mangle)]
pub extern "C" fn fanzsoreb_first_day(month: u32) -> FirstDayAnswer
    ensures { result ≡ first_day_answer month }
{
    first_day::first_day(month).into()
}
