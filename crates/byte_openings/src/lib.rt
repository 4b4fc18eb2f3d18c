// Internal: an opening of a book in lent bytes: three words are written where they lie, that with the count last.
#![tactic(auto)]

ghost use Rattle.std.specs.Prelude.{◌≡◌, length};
ghost use Rattle.rules.specs.Refusals.{not_a_book, answer_of};
ghost use Rattle.rules.specs.Book.{open_cause, open_words, open_default_cause, open_default_words};
ghost use Rattle.word_bytes.specs.Bytes.{on_words, with_words};

use rules::Refusal;
use rules::bounds::{DEFAULT_COEFFICIENT, DEFAULT_TOLERANCE};
use rules::layout::{COEFFICIENT_WORD, COUNT_WORD, TOLERANCE_WORD};

// Beside `opening::open`: of the two only the test is one, since a trait of words and of bytes would have more lines than the
// three stores.
pub fn open(book: &mut [u8], coefficient: u32, tolerance: u32) -> Result<(), Refusal>
    ensures answer { answer_of result ≡ on_words book.old (λ ws. open_cause (length ws) coefficient tolerance) not_a_book }
    ensures bytes { book.new ≡ with_words book.old (λ ws. open_words ws coefficient tolerance) }
{
    if !word_bytes::is_whole(book) {
        return Err(Refusal::NotABook);
    }
    opening::check(book.len() / 4, coefficient, tolerance)?;
    word_bytes::put_word(book, 4, COEFFICIENT_WORD + coefficient);
    word_bytes::put_word(book, 8, TOLERANCE_WORD + tolerance);
    word_bytes::put_word(book, 0, COUNT_WORD);
    Ok(())
}

// With the figures of an opening that names none (02, T-12).
pub fn open_default(book: &mut [u8]) -> Result<(), Refusal>
    ensures answer { answer_of result ≡ on_words book.old (λ ws. open_default_cause (length ws)) not_a_book }
    ensures bytes { book.new ≡ with_words book.old open_default_words }
{
    open(book, DEFAULT_COEFFICIENT, DEFAULT_TOLERANCE)
}
