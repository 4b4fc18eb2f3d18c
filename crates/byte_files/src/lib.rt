// Internal: a day file read into a book in lent bytes.
#![tactic(auto)]

ghost use Rattle.std.specs.Prelude.{◌≡◌};
ghost use Rattle.rules.specs.Refusals.{not_a_book};
ghost use Rattle.rules.specs.Answers.{file_read_of};
ghost use Rattle.rules.specs.Calls.{words_after, file_answer};
ghost use Rattle.rules.specs.Calls as calls;
ghost use Rattle.word_bytes.specs.Bytes.{on_words, with_words};

use rules::Refusal;

// A line is three words: a file adds no more entries than its bytes have lines.
const LINE_BYTES: usize = 12;

pub fn read(book: &mut [u8], file: &[u8]) -> Result<u32, Refusal>
    ensures answer { file_read_of result ≡ on_words book.old (λ ws. file_answer ws file.now) (record { answer = not_a_book; posted = 0 }) }
    ensures bytes { book.new ≡ with_words book.old (λ ws. words_after ws (calls.file file.now)) }
{
    byte_calls::change(
        book,
        file.len() / LINE_BYTES,
        |words| dayfile::read_file(words, file),
    )
}
