// Collateral on a book in lent bytes.
ghost use Rattle.std.specs.Prelude.{◌≡◌};
ghost use Rattle.rules.specs.Refusals.{not_a_book};
ghost use Rattle.rules.specs.Answers.{collateral_answer_of};
ghost use Rattle.rules.specs.Collateral.{collateral_answer, refused_collateral};
ghost use Rattle.word_bytes.specs.Bytes.{on_words};

use case_figures::Case;
use rules::{Items, Refusal};

pub fn secure(book: &[u8], case: Case) -> Result<Items, Refusal>
    ensures { collateral_answer_of result ≡ on_words book.now (λ ws. collateral_answer ws case) (refused_collateral not_a_book) }
{
    byte_calls::ask(book, |words| collateral::collateral(words, case))
}
