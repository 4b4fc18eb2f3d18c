// The tally of a party's day, and both balances (01, 'The two balances').
#![tactic(auto)]

ghost use Rattle.std.specs.Prelude.{◌≡◌, IfOk};
ghost use Rattle.rules.specs.Refusals.{answer_of};
ghost use Rattle.rules.specs.Answers.{tally_answer_of, balance_answer_of};
ghost use Rattle.rules.specs.Words.{entries, coefficient_of, tolerance_of};
ghost use Rattle.rules.specs.Balance.{party_day_cause, tally_answer, balance_answer, is_detected, day_ahead, delivery};
ghost use Rattle.tally.specs.Scan.{scanned};

use balance_formulas::Figures;
use rules::{PartyDay, Refusal};

// What both balances of a party's day are made of, by one pass over the book. Inlined, as the scan is, so that the seventeen
// sums are not copied from frame to frame.
#[inline(always)]
fn figures(book: &[u32], party: u32, day: u32) -> Result<Figures, Refusal>
    ensures answer { answer_of result ≡ party_day_cause book.now party day }
    ensures day { IfOk result (λ f. f.day ≡ scanned party day (entries book.now)) }
    ensures coefficient { IfOk result (λ f. f.tolerances.coefficient ≡ coefficient_of book.now) }
    ensures tolerance { IfOk result (λ f. f.tolerances.tolerance ≡ tolerance_of book.now) }
{
    let checked = book::asked(book, party, day)?;
    Ok(tally::scan(&checked, party, day))
}

// The seventeen sums and B.
pub fn tally(book: &[u32], party: u32, day: u32) -> Result<PartyDay, Refusal>
    ensures { tally_answer_of result ≡ tally_answer book.now party day }
{
    Ok(figures(book, party, day)?.day)
}

// Article 7.
pub fn day_ahead(book: &[u32], party: u32, day: u32) -> Result<i64, Refusal>
    ensures { balance_answer_of result ≡ balance_answer day_ahead book.now party day }
{
    Ok(figures(book, party, day)?.day_ahead())
}

// Article 5.
pub fn delivery(book: &[u32], party: u32, day: u32) -> Result<i64, Refusal>
    ensures { balance_answer_of result ≡ balance_answer delivery book.now party day }
{
    Ok(figures(book, party, day)?.delivery())
}

// Above zero is detected; zero is clear.
#[tactic(auto, unfolding(rules::specs::Balance::is_detected))]
pub fn detected(balance: i64) -> bool
    ensures { result ≡ is_detected balance }
{
    0 < balance
}
