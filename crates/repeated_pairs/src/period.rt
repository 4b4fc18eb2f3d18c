// Internal: the billing period of a day, its month. A caller meets each `requires`.
ghost use Rattle.std.specs.Prelude.{◌≡◌, true};
ghost use Rattle.calendar.specs.Calendar.{month_of};
ghost use Rattle.rules.specs.Entry.{legal, record_in};
ghost use Rattle.repeated_pairs.specs.Periods.{IsPeriod};
ghost use Rattle.repeated_pairs.specs.Pairs.{is_other};

use calendar::rule;
use rules::Entry;
use rules::layout::CANCELLED;

// A day, the first day of its billing period, and that of the next.
#[derive(Clone, Copy)]
pub struct Period {
    pub day: u32,
    pub first: u64,
    pub next: u64,
    ghost of_day: { IsPeriod day first next },
}

// The month of a day, by the table of months.
fn month_at(day: u32) -> u32
    ensures { result ≡ month_of day }
{
    calendar::month_of(day)
}

impl Period {
    pub fn of(day: u32) -> Period
        ensures { result.day ≡ day }
    {
        let month = month_at(day);
        Period {
            day,
            first: rule::month_start(month),
            next: rule::month_start(month + 1),
        }
    }

    // A cancelled entry of another day of the period.
    pub fn is_other(&self, e: Entry) -> bool
        requires { legal (record_in e) ≡ true }
        ensures { result ≡ is_other self.now.day (record_in e) }
    {
        let day = u64::from(e.key.day);
        (e.status == CANCELLED)
            & !(e.key.day == self.day)
            & ((self.first <= day) & (day < self.next))
    }
}
