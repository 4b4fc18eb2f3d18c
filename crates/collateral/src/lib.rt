// Collateral: each item and the total of a case (document 01, 'Collateral').
#![tactic(auto)]

ghost use Rattle.std.specs.Prelude.{◌≡◌};
ghost use Rattle.rules.specs.Answers.{collateral_answer_of};
ghost use Rattle.rules.specs.Collateral.{collateral_answer};

use case_figures::Case;
use ranges::CheckedCase;
use rules::{Items, Refusal};

mod items;
mod months;
mod ranges;

// Margin, trading, imbalance, risk, YEK and the total, or the lowest cause that holds: no book, party, day, another figure.
pub fn collateral(book: &[u32], case: Case) -> Result<Items, Refusal>
    ensures { collateral_answer_of result ≡ collateral_answer book.now case }
{
    let checked = book::asked(book, case.asked.party, case.asked.day)?;
    Ok(CheckedCase::of(case)?.items(&checked))
}
