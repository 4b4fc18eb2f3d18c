// The first day of a month of the years 2000 to 2399 (02, T-08).
#![tactic(auto)]

ghost use Rattle.std.specs.Prelude.{◌≡◌};
ghost use Rattle.rules.specs.Answers.{first_day_answer_of};
ghost use Rattle.rules.specs.FirstDay.{first_day_answer};

use rules::Refusal;
use rules::bounds::HORIZON_MONTHS;

// The first day of a month, counted from January 2000, or 12.
#[tactic(auto, unfolding(rules::specs::FirstDay::first_day_answer, rules::specs::FirstDay::first_day_cause))]
pub fn first_day(month: u32) -> Result<u32, Refusal>
    ensures { first_day_answer_of result ≡ first_day_answer month }
{
    if month >= HORIZON_MONTHS {
        return Err(Refusal::BadFigure);
    }
    Ok(calendar::rule::month_start(month) as u32)
}
