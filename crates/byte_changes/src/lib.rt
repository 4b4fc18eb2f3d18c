// Internal: a post, a withdrawal or a control on a book in lent bytes.
#![tactic(auto)]

ghost use Rattle.std.specs.Prelude.{◌≡◌};
ghost use Rattle.rules.specs.Entry.{key_in};
ghost use Rattle.rules.specs.Refusals.{not_a_book, answer_of};
ghost use Rattle.rules.specs.Answers.{posted_of, controlled_of};
ghost use Rattle.rules.specs.Calls.{cause_of, words_after, post_answer, control_answer};
ghost use Rattle.rules.specs.Calls as calls;
ghost use Rattle.word_bytes.specs.Bytes.{on_words, with_words};

use rules::{Counts, Key, Refusal};

pub fn post(book: &mut [u8], key: Key, amount: u64) -> Result<u32, Refusal>
    ensures answer { posted_of result ≡ on_words book.old (λ ws. post_answer ws (key_in key) amount) (record { answer = not_a_book; number = 0 }) }
    ensures bytes { book.new ≡ with_words book.old (λ ws. words_after ws (calls.post (key_in key) amount)) }
{
    byte_calls::change(book, 1, |words| book::post(words, key, amount))
}

pub fn withdraw(book: &mut [u8], number: u32) -> Result<(), Refusal>
    ensures answer { answer_of result ≡ on_words book.old (λ ws. cause_of ws (calls.withdraw number)) not_a_book }
    ensures bytes { book.new ≡ with_words book.old (λ ws. words_after ws (calls.withdraw number)) }
{
    byte_calls::change(book, 0, |words| book::withdraw(words, number))
}

// It adds the mark of a closed day.
pub fn control(book: &mut [u8], day: u32) -> Result<Counts, Refusal>
    ensures answer { controlled_of result ≡ on_words book.old (λ ws. control_answer ws day) (record { answer = not_a_book; first = 0; second = 0; cancelled = 0 }) }
    ensures bytes { book.new ≡ with_words book.old (λ ws. words_after ws (calls.control day)) }
{
    byte_calls::change(book, 1, |words| control::control(words, day))
}
