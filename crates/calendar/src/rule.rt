// The first day of a month by the Gregorian rule: a few divisions, no table and no loop (02, T-08).
ghost use Rattle.std.specs.Prelude.{◌≡◌};
ghost use Rattle.calendar.specs.Calendar.{leap_days, month_start};

// The leap days of the first years from 2000 on: of each fourth year, not of a hundredth, but of a four-hundredth.
fn leap_days(years: u32) -> u64
    ensures { result ≡ leap_days years }
{
    let n = u64::from(years);
    (n + 3) / 4 - (n + 99) / 100 + (n + 399) / 400
}

// The first day of a month, counted from January 2000; 64 bits hold that of any month. Years begin in March here, the
// first in March 1999, 306 days before day 0: so a leap day is the last of its year.
pub fn month_start(month: u32) -> u64
    ensures { result ≡ month_start month }
{
    let m = u64::from(month);
    let years = (m + 10) / 12;
    let months = (m + 10) % 12;
    365 * years + leap_days(years as u32) + (153 * months + 2) / 5 - 306
}
