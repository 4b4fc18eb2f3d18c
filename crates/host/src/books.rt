// A book in lent bytes: is it a book, open, post, withdraw, the number of entries and one entry.
ghost use Rattle.std.specs.Prelude.{◌≡◌, length};
ghost use Rattle.rules.specs.Entry.{key_of};
ghost use Rattle.rules.specs.Words.{is_book};
ghost use Rattle.rules.specs.Refusals.{not_a_book};
ghost use Rattle.rules.specs.Book.{open_cause, open_words, open_default_cause, open_default_words, count_answer, no_read, read_answer};
ghost use Rattle.rules.specs.Calls.{cause_of, words_after, post_answer};
ghost use Rattle.rules.specs.Calls as calls;
ghost use Rattle.word_bytes.specs.Bytes.{on_words, with_words, yes_no};

use rules::answers::answer_of;
use rules::{Counted, EntryRead, Key, Posted};

// 1 if the bytes are a book, else 0.
#[unsafe(no_mangle)]
pub extern "C" fn fanzsoreb_is_book(book: &[u8]) -> u32
    ensures { result ≡ on_words book.now (λ ws. yes_no (is_book ws)) 0 }
{
    byte_questions::is_book(book).into()
}

// Opens a book with coefficient R in hundredths and tolerance amount TM in kWh.
#[unsafe(no_mangle)]
pub extern "C" fn fanzsoreb_open(book: &mut [u8], coefficient: u32, tolerance: u32) -> u32
    ensures answer { result ≡ on_words book.old (λ ws. open_cause (length ws) coefficient tolerance) not_a_book }
    ensures bytes { book.new ≡ with_words book.old (λ ws. open_words ws coefficient tolerance) }
{
    answer_of(byte_openings::open(book, coefficient, tolerance))
}

// Opens a book with the figures of an opening that names none.
#[unsafe(no_mangle)]
pub extern "C" fn fanzsoreb_open_default(book: &mut [u8]) -> u32
    ensures answer { result ≡ on_words book.old (λ ws. open_default_cause (length ws)) not_a_book }
    ensures bytes { book.new ≡ with_words book.old open_default_words }
{
    answer_of(byte_openings::open_default(book))
}

// Appends one standing entry and answers its number, counted from 0.
#[unsafe(no_mangle)]
pub extern "C" fn fanzsoreb_post(
    book: &mut [u8],
    party: u32,
    day: u32,
    entry_type: u32,
    counterparty: u32,
    amount: u64,
) -> Posted
    ensures answer { result ≡ on_words book.old (λ ws. post_answer ws (key_of party day entry_type counterparty) amount) (record { answer = not_a_book; number = 0 }) }
    ensures bytes { book.new ≡ with_words book.old (λ ws. words_after ws (calls.post (key_of party day entry_type counterparty) amount)) }
{
    let key = Key {
        party,
        day,
        entry_type,
        counterparty,
    };
    byte_changes::post(book, key, amount).into()
}

// Gives the entry of this number status 1.
#[unsafe(no_mangle)]
pub extern "C" fn fanzsoreb_withdraw(book: &mut [u8], number: u32) -> u32
    ensures answer { result ≡ on_words book.old (λ ws. cause_of ws (calls.withdraw number)) not_a_book }
    ensures bytes { book.new ≡ with_words book.old (λ ws. words_after ws (calls.withdraw number)) }
{
    answer_of(byte_changes::withdraw(book, number))
}

// The number of entries, of every status.
#[unsafe(no_mangle)]
pub extern "C" fn fanzsoreb_count(book: &[u8]) -> Counted
    ensures { result ≡ on_words book.now count_answer (record { answer = not_a_book; count = 0 }) }
{
    byte_questions::count(book).into()
}

// One entry by its number.
#[unsafe(no_mangle)]
pub extern "C" fn fanzsoreb_entry(book: &[u8], number: u32) -> EntryRead
    ensures { result ≡ on_words book.now (λ ws. read_answer ws number) (no_read not_a_book) }
{
    byte_questions::entry(book, number).into()
}
