// The ranges of a case's figures (01, 'Collateral').
ghost use Rattle.std.specs.Prelude.{◌≡◌, true, IfOk};
ghost use Rattle.numbers.specs.Causes.{unless};
ghost use Rattle.rules.specs.Refusals.{answer_of, bad_figure};
ghost use Rattle.rules.specs.Collateral.{figures_ok};

use crate::months;
use case_figures::Case;
use rules::Refusal;

// A case whose figures are in their ranges. Licence, holiday and responsible stay the C call's numbers: another one is cause 12.
#[derive(Clone, Copy)]
pub struct CheckedCase {
    pub case: Case,
    ghost in_range: { figures_ok case ≡ true },
}

// All figures are held to their ranges, month answers only if used.
#[tactic(auto, unfolding(rules::specs::Collateral::figures_ok))]
fn figures_ok(case: &Case) -> bool
    ensures { result ≡ figures_ok case.now }
{
    let group = &case.group;
    (case.margin.licence <= 2)
        & (case.trading.holiday <= 1)
        & (group.responsible <= 1)
        & (case.margin.capacity <= 100000000)
        & (case.trading.nonbusiness <= 29)
        & (case.trading.defaults <= 30)
        & (group.used <= 3)
        & months::months_ok(months::used_months(&group.months, group.used))
        & (group.rk <= 500)
        & (group.rt <= 1000000000000000)
        & (case.yek.yt <= 100000000000000)
        & ((1 <= case.yek.best) & (case.yek.best <= 10000))
        & (case.yek.score <= case.yek.best)
}

impl CheckedCase {
    pub fn of(case: Case) -> Result<CheckedCase, Refusal>
        ensures answer { answer_of result ≡ unless (figures_ok case) bad_figure }
        ensures case { IfOk result (λ checked. checked.case ≡ case) }
    {
        if !figures_ok(&case) {
            return Err(Refusal::BadFigure);
        }
        Ok(CheckedCase { case })
    }
}
