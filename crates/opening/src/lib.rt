// Opening a book in lent words, with figures and with those of an opening that names none (document 01, 'The words'; 02, T-12).
#![tactic(auto)]

ghost use Rattle.std.specs.Prelude.{◌≡◌, length};
ghost use Rattle.rules.specs.Refusals.{answer_of};
ghost use Rattle.rules.specs.Book.{open_cause, open_words, open_default_cause, open_default_words};

use rules::Refusal;
use rules::bounds::{DEFAULT_COEFFICIENT, DEFAULT_TOLERANCE, MOST_COEFFICIENT, MOST_TOLERANCE};
use rules::layout::{COEFFICIENT_WORD, COUNT_WORD, HEAD_WORDS, TOLERANCE_WORD};

// Whether so many lent words can be opened with these figures, in one test; why they cannot is asked only where they cannot.
pub fn check(lent: usize, coefficient: u32, tolerance: u32) -> Result<(), Refusal>
    ensures { answer_of result ≡ open_cause lent coefficient tolerance }
{
    if (HEAD_WORDS <= lent) & ((coefficient <= MOST_COEFFICIENT) & (tolerance <= MOST_TOLERANCE)) {
        return Ok(());
    }
    if lent < HEAD_WORDS {
        return Err(Refusal::BadLength);
    }
    Err(Refusal::BadFigure)
}

// Opens a book with coefficient R and tolerance amount TM: three words are written and no other, that with the count last.
pub fn open(book: &mut [u32], coefficient: u32, tolerance: u32) -> Result<(), Refusal>
    ensures answer { answer_of result ≡ open_cause (length book.old) coefficient tolerance }
    ensures words { book.new ≡ open_words book.old coefficient tolerance }
{
    check(book.len(), coefficient, tolerance)?;
    book[1] = COEFFICIENT_WORD + coefficient;
    book[2] = TOLERANCE_WORD + tolerance;
    book[0] = COUNT_WORD;
    Ok(())
}

// Opens a book with the figures of an opening that names none (02, T-12).
pub fn open_default(book: &mut [u32]) -> Result<(), Refusal>
    ensures answer { answer_of result ≡ open_default_cause (length book.old) }
    ensures words { book.new ≡ open_default_words book.old }
{
    open(book, DEFAULT_COEFFICIENT, DEFAULT_TOLERANCE)
}
