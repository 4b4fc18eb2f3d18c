// Internal: the causes of a file's items, in file order. A caller meets each `requires`.
#![tactic(auto)]

ghost use Rattle.std.specs.Prelude.{◌≡◌, true, List, [], ◌∷◌, ◌≤◌, length, IfOk};
ghost use Rattle.rules.specs.Refusals.{answer_of};
ghost use Rattle.rules.specs.Answers.{file_read_of};
ghost use Rattle.rules.specs.Entry.{Record, key_in};
ghost use Rattle.rules.specs.Words.{is_book, entries};
ghost use Rattle.rules.specs.DayFile.{line, empty_block, item_cause, items, lines_of, most_bytes, is_file};
ghost use Rattle.rules.specs.Calls.{file_answer};
ghost use Rattle.file_walk.specs.Walk.{item_in};
ghost use Rattle.file_check.specs.Check.{TableOf, cause_by, scanned};

use file_walk::walk::{Item, Items};
use rules::bounds::DAYS;
use rules::{Key, Refusal};
use words::Book;

// A block without lines still has its party and day checked.
fn check_block(party: u32, day: u32) -> Result<(), Refusal>
    ensures { answer_of result ≡ item_cause [] (empty_block party day) }
{
    if !entry_checks::party_ok(party) {
        return Err(Refusal::BadParty);
    }
    if !entry_checks::day_ok(day) {
        return Err(Refusal::BadDay);
    }
    Ok(())
}

// The flag is looked at before the type, which it would be costly to branch on in each line.
fn check_line(closed: &[bool], key: Key, amount: u64) -> Result<(), Refusal>
    ensures { answer_of result ≡ cause_by closed.now (line (key_in key) amount) }
{
    entry_checks::check(key, amount)?;
    if !closed_days::flag_of(closed, key.day) {
        return Ok(());
    }
    if entry_checks::is_bilateral(key) {
        return Err(Refusal::DayClosed);
    }
    Ok(())
}

// How many lines an item is, one or none.
fn check_item(closed: &[bool], item: Item) -> Result<u32, Refusal>
    ensures answer { answer_of result ≡ cause_by closed.now (item_in item) }
    ensures ok { IfOk result (λ lines. lines ≡ length (lines_of (item_in item ∷ []))) }
{
    match item {
        Item::Line { key, amount } => {
            check_line(closed, key, amount)?;
            Ok(1)
        }
        Item::EmptyBlock { party, day } => {
            check_block(party, day)?;
            Ok(0)
        }
    }
}

// The first cause in file order, or how many lines there are. `closed` tells the closed days.
fn scan(file: &[u8], closed: &[bool]) -> Result<u32, Refusal>
    requires { length file.now ≤ most_bytes }
    ensures { (rs : List Record) → TableOf closed.now rs → file_read_of result ≡ scanned rs (items file.now) }
{
    let mut lines = 0;
    for item in Items::of(file) {
        lines += check_item(closed, item)?;
    }
    Ok(lines)
}

// With a flag for each day: for a book with a mark only, for the table takes 36 KB of stack. Not inlined, so that the frames
// of its callers stay without it.
#[inline(never)]
fn scan_marked(book: &Book, file: &[u8]) -> Result<u32, Refusal>
    requires { length file.now ≤ most_bytes }
    ensures { file_read_of result ≡ scanned (entries book.now) (items file.now) }
{
    let mut closed = [false; DAYS];
    closed_days::close_days(book, &mut closed);
    scan(file, &closed)
}

// A book without a mark needs one flag only. A caller learns here that the words are a book.
fn scan_for(book: &Book, file: &[u8]) -> Result<u32, Refusal>
    requires { length file.now ≤ most_bytes }
    ensures scan { file_read_of result ≡ scanned (entries book.now) (items file.now) }
    ensures book { is_book book.now ≡ true }
{
    if closed_days::has_mark(book) {
        return scan_marked(book, file);
    }
    scan(file, &[false])
}

// How many lines a file posts into a book, or why none: what the lines and empty blocks say, then room.
pub fn answer_of(book: &Book, file: &[u8]) -> Result<u32, Refusal>
    requires { is_file file.now ≡ true }
    ensures { file_read_of result ≡ file_answer book.now file.now }
{
    let lines = scan_for(book, file)?;
    if !book.has_room(lines) {
        return Err(Refusal::NoRoom);
    }
    Ok(lines)
}
