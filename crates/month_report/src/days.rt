// Internal: the days of a month, by their number. A caller meets each `requires`.
ghost use Rattle.std.specs.Prelude.{◌≡◌, true, cond, ◌-◌, ◌≤◌, IfOk, IfErr, OnOk, OnErr, ◌<◌};
ghost use Rattle.calendar.specs.Calendar.{months, month_start, month_length};
ghost use Rattle.rules.specs.Entry.{day_places};
ghost use Rattle.rules.specs.Words.{word};
ghost use Rattle.month_report.specs.Lines.{words_count};

use calendar::rule;
use entry_words::EntryWords;
use rules::Refusal;
use rules::bounds::MONTHS;
use rules::layout::{DAY_WORD, WITHDRAWN_WORD};

// The first day of a month, and how many it has.
#[derive(Clone, Copy, Debug, PartialEq, Eq)]
pub struct MonthDays {
    pub first: u32,
    pub count: u32,
    ghost first_within: { first ≤ day_places },
    ghost few: { count ≤ 31 },
}

impl MonthDays {
    pub fn of(month: u32) -> Result<MonthDays, Refusal>
        ensures first { IfOk result (λ days. days.first ≡ month_start month) }
        ensures count { IfOk result (λ days. days.count ≡ month_length month) }
        ensures within { OnOk result (month < months) }
        ensures err { IfErr result (λ refusal. refusal ≡ Refusal.BadFigure) }
        ensures past { OnErr result (months ≤ month) }
    {
        if MONTHS <= month {
            return Err(Refusal::BadFigure);
        }
        let first = rule::month_start(month) as u32;
        let next = rule::month_start(month + 1) as u32;
        Ok(MonthDays {
            first,
            count: next - first,
        })
    }

    // Whether an entry of a checked book counts, by its words of the day and of the type: they have their kinds and no
    // unnamed bit. A mark passes too: its amount is 0.
    pub fn counts(self, e: EntryWords) -> bool
        ensures { result ≡ words_count (word 2 self.first) self.count e.day e.figures }
    {
        let start = DAY_WORD + self.first;
        (start <= e.day) & (e.day < start + self.count) & (e.figures < WITHDRAWN_WORD)
    }

    // The line of an entry's day where it counts, else 0. They are multiplied, since a branch on an entry's day or status
    // would be mispredicted.
    pub fn line_if(self, counts: bool, e: EntryWords) -> usize
        requires { counts ≡ true → word 2 self.first ≤ e.day }
        ensures { result ≡ cond counts (e.day - word 2 self.first) 0 }
    {
        let one = u32::from(counts);
        (one * e.day - one * (DAY_WORD + self.first)) as usize
    }
}
