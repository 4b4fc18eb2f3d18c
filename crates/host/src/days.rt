// Control of a day, and a day file read into a book in lent bytes (document 01, 'Control of a day', 'Day file').
ghost use Rattle.std.specs.Prelude.{◌≡◌};
ghost use Rattle.rules.specs.Refusals.{not_a_book};
ghost use Rattle.rules.specs.Calls.{words_after, control_answer, file_answer};
ghost use Rattle.rules.specs.Calls as calls;
ghost use Rattle.word_bytes.specs.Bytes.{on_words, with_words};

use rules::{Controlled, FileRead};

// Posts the lines of a file: all of them or none.
#[unsafe(no_mangle)]
pub extern "C" fn fanzsoreb_read_file(book: &mut [u8], file: &[u8]) -> FileRead
    ensures answer { result ≡ on_words book.old (λ ws. file_answer ws file.now) (record { answer = not_a_book; posted = 0 }) }
    ensures bytes { book.new ≡ with_words book.old (λ ws. words_after ws (calls.file file.now)) }
{
    byte_files::read(book, file).into()
}

// Cancels the bilateral sales of detected parties and closes the day.
#[unsafe(no_mangle)]
pub extern "C" fn fanzsoreb_control(book: &mut [u8], day: u32) -> Controlled
    ensures answer { result ≡ on_words book.old (λ ws. control_answer ws day) (record { answer = not_a_book; first = 0; second = 0; cancelled = 0 }) }
    ensures bytes { book.new ≡ with_words book.old (λ ws. words_after ws (calls.control day)) }
{
    byte_changes::control(book, day).into()
}
