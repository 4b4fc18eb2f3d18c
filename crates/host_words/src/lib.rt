// The calls for hosts in C on words: every call on a book and the month step, in place. A host owes 4-byte alignment.
#![tactic(auto)]

ghost use Rattle.std.specs.Prelude.{◌≡◌, length};
ghost use Rattle.rules.specs.Entry.{key_of};
ghost use Rattle.rules.specs.Words.{is_book};
ghost use Rattle.rules.specs.Book.{open_cause, open_words, open_default_cause, open_default_words, count_answer, read_answer};
ghost use Rattle.rules.specs.Balance.{tally_answer, balance_answer, day_ahead, delivery};
ghost use Rattle.rules.specs.Calls.{cause_of, words_after, post_answer, control_answer, file_answer};
ghost use Rattle.rules.specs.Calls as calls;
ghost use Rattle.rules.specs.Collateral.{collateral_answer};
ghost use Rattle.rules.specs.Month.{tables_of, month_answer};
ghost use Rattle.rules.specs.MonthReport.{month_report};
ghost use Rattle.word_bytes.specs.Bytes.{yes_no};
ghost use Rattle.collateral_case.specs.Cases.{case_of};

use rules::answers::answer_of;
use rules::{
    BalanceAnswer, Collateral, Controlled, Counted, EntryRead, FileRead, Key, MonthAnswer,
    MonthReport, Posted, TallyAnswer,
};

// 1 if the words are a book, else 0.
#[unsafe(no_mangle)]
pub extern "C" fn fanzsoreb_is_book_words(book: &[u32]) -> u32
    ensures { result ≡ yes_no (is_book book.now) }
{
    book::is_book(book).into()
}

// Opens a book with coefficient R in hundredths and tolerance amount TM in kWh.
#[unsafe(no_mangle)]
pub extern "C" fn fanzsoreb_open_words(book: &mut [u32], coefficient: u32, tolerance: u32) -> u32
    ensures answer { result ≡ open_cause (length book.old) coefficient tolerance }
    ensures words { book.new ≡ open_words book.old coefficient tolerance }
{
    answer_of(opening::open(book, coefficient, tolerance))
}

// Opens a book with the figures of an opening that names none.
#[unsafe(no_mangle)]
pub extern "C" fn fanzsoreb_open_default_words(book: &mut [u32]) -> u32
    ensures answer { result ≡ open_default_cause (length book.old) }
    ensures words { book.new ≡ open_default_words book.old }
{
    answer_of(opening::open_default(book))
}

// Appends one standing entry and answers its number, counted from 0.
#[unsafe(no_mangle)]
pub extern "C" fn fanzsoreb_post_words(
    book: &mut [u32],
    party: u32,
    day: u32,
    entry_type: u32,
    counterparty: u32,
    amount: u64,
) -> Posted
    ensures answer { result ≡ post_answer book.old (key_of party day entry_type counterparty) amount }
    ensures words { book.new ≡ words_after book.old (calls.post (key_of party day entry_type counterparty) amount) }
{
    let key = Key {
        party,
        day,
        entry_type,
        counterparty,
    };
    book::post(book, key, amount).into()
}

// Gives the entry of this number status 1.
#[unsafe(no_mangle)]
pub extern "C" fn fanzsoreb_withdraw_words(book: &mut [u32], number: u32) -> u32
    ensures answer { result ≡ cause_of book.old (calls.withdraw number) }
    ensures words { book.new ≡ words_after book.old (calls.withdraw number) }
{
    answer_of(book::withdraw(book, number))
}

// The number of entries, of every status.
#[unsafe(no_mangle)]
pub extern "C" fn fanzsoreb_count_words(book: &[u32]) -> Counted
    ensures { result ≡ count_answer book.now }
{
    book::count(book).into()
}

// One entry by its number.
#[unsafe(no_mangle)]
pub extern "C" fn fanzsoreb_entry_words(book: &[u32], number: u32) -> EntryRead
    ensures { result ≡ read_answer book.now number }
{
    book::entry(book, number).into()
}

// The seventeen sums of a party's day and B.
#[unsafe(no_mangle)]
pub extern "C" fn fanzsoreb_tally_words(book: &[u32], party: u32, day: u32) -> TallyAnswer
    ensures { result ≡ tally_answer book.now party day }
{
    position::tally(book, party, day).into()
}

// The day-ahead balance, in hundredths of a kWh (document 004, Article 7).
#[unsafe(no_mangle)]
pub extern "C" fn fanzsoreb_day_ahead_words(book: &[u32], party: u32, day: u32) -> BalanceAnswer
    ensures { result ≡ balance_answer day_ahead book.now party day }
{
    position::day_ahead(book, party, day).into()
}

// The delivery balance, in hundredths of a kWh (document 004, Article 5).
#[unsafe(no_mangle)]
pub extern "C" fn fanzsoreb_delivery_words(book: &[u32], party: u32, day: u32) -> BalanceAnswer
    ensures { result ≡ balance_answer delivery book.now party day }
{
    position::delivery(book, party, day).into()
}

// Posts the lines of a file: all of them or none.
#[unsafe(no_mangle)]
pub extern "C" fn fanzsoreb_read_file_words(book: &mut [u32], file: &[u8]) -> FileRead
    ensures answer { result ≡ file_answer book.old file.now }
    ensures words { book.new ≡ words_after book.old (calls.file file.now) }
{
    dayfile::read_file(book, file).into()
}

// Cancels the bilateral sales of detected parties and closes the day.
#[unsafe(no_mangle)]
pub extern "C" fn fanzsoreb_control_words(book: &mut [u32], day: u32) -> Controlled
    ensures answer { result ≡ control_answer book.old day }
    ensures words { book.new ≡ words_after book.old (calls.control day) }
{
    control::control(book, day).into()
}

// AOSMF and AEDM of a group's month, out of three tables.
#[unsafe(no_mangle)]
pub extern "C" fn fanzsoreb_month_words(
    prices: &[u32],
    imbalance: &[i32],
    rows: u32,
    dm: &[i32],
    group: u32,
) -> MonthAnswer
    ensures { result ≡ month_answer (tables_of prices.now imbalance.now rows dm.now group) }
{
    month_step::month_step(prices, imbalance, rows, dm, group).into()
}

// Each item of collateral and the total of a case.
#[unsafe(no_mangle)]
pub extern "C" fn fanzsoreb_collateral_words(
    book: &[u32],
    party: u32,
    day: u32,
    licence: u32,
    capacity: u64,
    nonbusiness: u32,
    holiday: u32,
    defaults: u32,
    responsible: u32,
    aosmf1: u64,
    aedm1: i64,
    aosmf2: u64,
    aedm2: i64,
    aosmf3: u64,
    aedm3: i64,
    used: u32,
    rk: u32,
    rt: u64,
    yt: u64,
    score: u32,
    best: u32,
) -> Collateral
    ensures { result ≡ collateral_answer book.now (case_of party day licence capacity nonbusiness holiday defaults responsible aosmf1 aedm1 aosmf2 aedm2 aosmf3 aedm3 used rk rt yt score best) }
{
    let case = collateral_case::case_of(
        party,
        day,
        licence,
        capacity,
        nonbusiness,
        holiday,
        defaults,
        responsible,
        aosmf1,
        aedm1,
        aosmf2,
        aedm2,
        aosmf3,
        aedm3,
        used,
        rk,
        rt,
        yt,
        score,
        best,
    );
    collateral::collateral(book, case).into()
}

// All parties' sums of each day of a month and type, and the month's totals.
#[unsafe(no_mangle)]
pub extern "C" fn fanzsoreb_month_report_words(book: &[u32], month: u32) -> MonthReport
    ensures { result ≡ month_report book.now month }
{
    month_report::month_report(book, month)
}
