// The book in lent words: is it a book, post, withdraw, the number of entries and one entry (document 01, 'The words', 'Entry types').
#![tactic(auto)]

ghost use Rattle.std.specs.Prelude.{◌≡◌, IfOk};
ghost use Rattle.rules.specs.Refusals.{answer_of};
ghost use Rattle.rules.specs.Answers.{posted_of, counted_of, entry_read_of};
ghost use Rattle.rules.specs.Entry.{key_in};
ghost use Rattle.rules.specs.Words.{is_book, count_of};
ghost use Rattle.rules.specs.Book.{count_answer, no_read, read_answer};
ghost use Rattle.rules.specs.Balance.{party_day_cause};
ghost use Rattle.rules.specs.Calls.{cause_of, words_after, post_answer};
ghost use Rattle.rules.specs.Calls as calls;

use rules::layout::WITHDRAWN;
use rules::{Entry, EntryRead, Key, Refusal};
use words::Book;

// Whether the words are a book.
pub fn is_book(book: &[u32]) -> bool
    ensures { result ≡ is_book book.now }
{
    Book::of(book).is_ok()
}

// The number that a new entry gets.
fn next_number(book: &[u32], key: Key, amount: u64) -> Result<u32, Refusal>
    ensures answer { answer_of result ≡ cause_of book.now (calls.post (key_in key) amount) }
    ensures ok { IfOk result (λ number. number ≡ count_of book.now) }
{
    let book = Book::of(book)?;
    entry_checks::check(key, amount)?;
    if book.shut_to(key) {
        return Err(Refusal::DayClosed);
    }
    if !book.has_room(1) {
        return Err(Refusal::NoRoom);
    }
    Ok(book.count())
}

// Appends one standing entry and answers its number, counted from 0.
pub fn post(book: &mut [u32], key: Key, amount: u64) -> Result<u32, Refusal>
    ensures answer { posted_of result ≡ post_answer book.old (key_in key) amount }
    ensures words { book.new ≡ words_after book.old (calls.post (key_in key) amount) }
{
    let number = next_number(book, key, amount)?;
    entry_stores::append(book, key, amount);
    Ok(number)
}

// Whether an entry can be withdrawn.
fn check_withdrawal(book: &[u32], number: u32) -> Result<(), Refusal>
    ensures { answer_of result ≡ cause_of book.now (calls.withdraw number) }
{
    let book = Book::of(book)?;
    if book.count() <= number {
        return Err(Refusal::NoEntry);
    }
    book.kept(book.entry(number))
}

// Gives the entry of this number status 1. Its place is not used again.
pub fn withdraw(book: &mut [u32], number: u32) -> Result<(), Refusal>
    ensures answer { answer_of result ≡ cause_of book.old (calls.withdraw number) }
    ensures words { book.new ≡ words_after book.old (calls.withdraw number) }
{
    check_withdrawal(book, number)?;
    entry_stores::set_status(book, number as usize, WITHDRAWN);
    Ok(())
}

// The book of which a party's day can be asked; the lowest cause of 1, 3 and 4 that holds otherwise.
pub fn asked<'a>(book: &'a [u32], party: u32, day: u32) -> Result<Book<'a>, Refusal>
    ensures answer { answer_of result ≡ party_day_cause book.now party day }
    ensures ok { IfOk result (λ checked. checked ≡ book.now) }
{
    let checked = Book::of(book)?;
    if !entry_checks::party_ok(party) {
        return Err(Refusal::BadParty);
    }
    if !entry_checks::day_ok(day) {
        return Err(Refusal::BadDay);
    }
    Ok(checked)
}

// The number of entries, of every status.
pub fn count(book: &[u32]) -> Result<u32, Refusal>
    ensures { counted_of result ≡ count_answer book.now }
{
    Ok(Book::of(book)?.count())
}

// The entry of a refusal, by any cause: each figure is zero.
pub fn no_read(cause: u32) -> EntryRead
    ensures { result ≡ no_read cause }
{
    EntryRead {
        answer: cause,
        party: 0,
        day: 0,
        entry_type: 0,
        counterparty: 0,
        status: 0,
        amount: 0,
    }
}

// One entry by its number.
pub fn entry(book: &[u32], number: u32) -> Result<Entry, Refusal>
    ensures { entry_read_of result ≡ read_answer book.now number }
{
    let book = Book::of(book)?;
    if book.count() <= number {
        return Err(Refusal::NoEntry);
    }
    Ok(book.entry(number))
}
