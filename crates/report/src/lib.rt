// What the program `balance` prints, as a function on slices (01, 'Day file').
#![tactic(auto)]

ghost use Rattle.std.specs.Prelude.{◌≡◌, true, ◌≤◌, length};
ghost use Rattle.rules.specs.Entry.{last_party};
ghost use Rattle.rules.specs.Words.{is_book};
ghost use Rattle.rules.specs.Book.{open_default_words};
ghost use Rattle.text.specs.Text.{Wrote, Whole};
ghost use Rattle.text.specs.Written.{Puts};
ghost use Rattle.report.specs.Asked.{Asked};
ghost use Rattle.report.specs.Report.{line_text, line_of, party_lines, all_lines, report_into, report_on, most_text};

use rules::bounds::{DAYS, NUMBERS};
use rules::layout::BOOK_WORDS;
use text::Out;
use words::Book;

pub mod input;

// No report is longer.
pub const MOST_TEXT: usize = 442393;

fn put_line(party: u32, day: u32, ahead: i64, due: i64, out: &mut Out<'_>)
    ensures { Puts out.old (line_text party day ahead due) out.new }
{
    out.put_number(party);
    out.put(b' ');
    out.put_number(day);
    out.put(b' ');
    out.put_signed(ahead);
    out.put(b' ');
    out.put_signed(due);
    out.put(b'\n');
}

// A day file, and the book that it was read into.
#[derive(Drop)]
struct Filed<'b, 'f> {
    book: Book<'b>,
    file: &'f [u8],
    ghost is_book: { is_book book ≡ true },
}

impl<'b, 'f> Filed<'b, 'f> {
    // Both balances by one scan of the book.
    fn put_pair(&self, party: u32, day: u32, out: &mut Out<'_>)
        requires { Asked self.now.book party day }
        ensures { Puts out.old (line_of self.now.book party day) out.new }
    {
        let figures = tally::scan(&self.book, party, day);
        put_line(party, day, figures.day_ahead(), figures.delivery(), out);
    }

    // A line for each day of the party that the file names.
    fn put_party(&self, party: u32, out: &mut Out<'_>)
        requires { (1 ≤ party) × (party ≤ last_party) }
        ensures { Puts out.old (party_lines self.now.file.now self.now.book party) out.new }
    {
        let mut days = [false; DAYS];
        file_names::mark_days(self.file, party, &mut days);
        for (day, named) in days.iter().enumerate() {
            if *named {
                self.put_pair(party, day as u32, out);
            }
        }
    }

    // The lines of the parties that the file names. One that it does not name has none.
    fn put_parties(&self, out: &mut Out<'_>)
        ensures { Puts out.old (all_lines self.now.file.now self.now.book) out.new }
    {
        let mut parties = [false; NUMBERS];
        file_names::mark_parties(self.file, &mut parties);
        for party in 1..NUMBERS {
            if parties[party] {
                self.put_party(party as u32, out);
            }
        }
    }
}

fn report_into(book: &mut [u32], file: &[u8], out: &mut [u8]) -> usize
    ensures { Wrote out.old 0 (report_into (open_default_words book.old) file.now) result out.new }
{
    // what cannot be opened is no book for the file
    let _ = opening::open_default(book);
    if let Err(refusal) = dayfile::read_file(book, file) {
        return text::refused(refusal.into(), out);
    }
    let mut text = Out::new(out);
    text.put_bytes(b"party day ahead delivery\n");
    let book = Book::known(book);
    Filed { book, file }.put_parties(&mut text);
    text.count()
}

// The report on a day file, as much of it as fits: all of it in MOST_TEXT bytes.
pub fn report(file: &[u8], out: &mut [u8]) -> usize
    ensures wrote { Wrote out.old 0 (report_on file.now) result out.new }
    ensures whole { most_text ≤ length out.old → Whole out.old (report_on file.now) result out.new }
{
    let mut book = [0u32; BOOK_WORDS];
    report_into(&mut book, file, out)
}
