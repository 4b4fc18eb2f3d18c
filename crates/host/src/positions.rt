// The tally and both balances on a book in lent bytes (document 01, 'The two balances').
ghost use Rattle.std.specs.Prelude.{◌≡◌, pos};
ghost use Rattle.rules.specs.Refusals.{not_a_book};
ghost use Rattle.rules.specs.Balance.{tally_answer, balance_answer, is_detected, day_ahead, delivery, no_tally};
ghost use Rattle.word_bytes.specs.Bytes.{on_words, yes_no};

use rules::{BalanceAnswer, TallyAnswer};

// The seventeen sums of a party's day and B.
#[unsafe(no_mangle)]
pub extern "C" fn fanzsoreb_tally(book: &[u8], party: u32, day: u32) -> TallyAnswer
    ensures { result ≡ on_words book.now (λ ws. tally_answer ws party day) (record { answer = not_a_book; tally = no_tally; bought = 0 }) }
{
    byte_questions::tally(book, party, day).into()
}

// The day-ahead balance, in hundredths of a kWh (document 004, Article 7).
#[unsafe(no_mangle)]
pub extern "C" fn fanzsoreb_day_ahead(book: &[u8], party: u32, day: u32) -> BalanceAnswer
    ensures { result ≡ on_words book.now (λ ws. balance_answer day_ahead ws party day) (record { answer = not_a_book; balance = pos 0 }) }
{
    byte_questions::day_ahead(book, party, day).into()
}

// The delivery balance, in hundredths of a kWh (document 004, Article 5).
#[unsafe(no_mangle)]
pub extern "C" fn fanzsoreb_delivery(book: &[u8], party: u32, day: u32) -> BalanceAnswer
    ensures { result ≡ on_words book.now (λ ws. balance_answer delivery ws party day) (record { answer = not_a_book; balance = pos 0 }) }
{
    byte_questions::delivery(book, party, day).into()
}

// 1 if a balance is detected, else 0.
#[unsafe(no_mangle)]
pub extern "C" fn fanzsoreb_detected(balance: i64) -> u32
    ensures { result ≡ yes_no (is_detected balance) }
{
    position::detected(balance).into()
}
