// Internal: questions about a book in lent bytes: whether it is one, the number of entries, one entry, a tally, a balance.
#![tactic(auto)]

ghost use Rattle.std.specs.Prelude.{◌≡◌, false, pos};
ghost use Rattle.rules.specs.Words.{is_book};
ghost use Rattle.rules.specs.Refusals.{not_a_book};
ghost use Rattle.rules.specs.Answers.{counted_of, entry_read_of, tally_answer_of, balance_answer_of};
ghost use Rattle.rules.specs.Book.{count_answer, no_read, read_answer};
ghost use Rattle.rules.specs.Balance.{tally_answer, balance_answer, day_ahead, delivery, no_tally};
ghost use Rattle.word_bytes.specs.Bytes.{on_words};

use rules::{Entry, PartyDay, Refusal};

pub fn is_book(book: &[u8]) -> bool
    ensures { result ≡ on_words book.now is_book false }
{
    byte_calls::ask(book, |words| book::is_book(words))
}

pub fn count(book: &[u8]) -> Result<u32, Refusal>
    ensures { counted_of result ≡ on_words book.now count_answer (record { answer = not_a_book; count = 0 }) }
{
    byte_calls::ask(book, |words| book::count(words))
}

pub fn entry(book: &[u8], number: u32) -> Result<Entry, Refusal>
    ensures { entry_read_of result ≡ on_words book.now (λ ws. read_answer ws number) (no_read not_a_book) }
{
    byte_calls::ask(book, |words| book::entry(words, number))
}

pub fn tally(book: &[u8], party: u32, day: u32) -> Result<PartyDay, Refusal>
    ensures { tally_answer_of result ≡ on_words book.now (λ ws. tally_answer ws party day) (record { answer = not_a_book; tally = no_tally; bought = 0 }) }
{
    byte_calls::ask(book, |words| position::tally(words, party, day))
}

pub fn day_ahead(book: &[u8], party: u32, day: u32) -> Result<i64, Refusal>
    ensures { balance_answer_of result ≡ on_words book.now (λ ws. balance_answer day_ahead ws party day) (record { answer = not_a_book; balance = pos 0 }) }
{
    byte_calls::ask(book, |words| position::day_ahead(words, party, day))
}

pub fn delivery(book: &[u8], party: u32, day: u32) -> Result<i64, Refusal>
    ensures { balance_answer_of result ≡ on_words book.now (λ ws. balance_answer delivery ws party day) (record { answer = not_a_book; balance = pos 0 }) }
{
    byte_calls::ask(book, |words| position::delivery(words, party, day))
}
