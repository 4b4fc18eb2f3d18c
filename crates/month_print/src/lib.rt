// What the program `month` prints, as a function on slices (02, T-01).
#![tactic(auto)]

ghost use Rattle.std.specs.Prelude.{◌≤◌, length};
ghost use Rattle.rules.specs.Book.{open_default_words};
ghost use Rattle.text.specs.Text.{Wrote, Whole};
ghost use Rattle.month_text.specs.ReportText.{most_text};
ghost use Rattle.month_print.specs.MonthText.{month_into, month_on};

use rules::layout::BOOK_WORDS;

pub mod input;

// No text is longer.
pub const MOST_TEXT: usize = 14784;

// The file's refusal comes before the report's.
fn month_into(book: &mut [u32], file: &[u8], month: u32, out: &mut [u8]) -> usize
    ensures { Wrote out.old 0 (month_into (open_default_words book.old) file.now month) result out.new }
{
    // what cannot be opened is no book for the file
    let _ = opening::open_default(book);
    if let Err(refusal) = dayfile::read_file(book, file) {
        return text::refused(refusal.into(), out);
    }
    month_text::put_report(month_report::month_report(book, month), out)
}

// The month report on a day file, as much of it as fits: all of it in MOST_TEXT bytes.
pub fn month_on(file: &[u8], month: u32, out: &mut [u8]) -> usize
    ensures wrote { Wrote out.old 0 (month_on file.now month) result out.new }
    ensures whole { most_text ≤ length out.old → Whole out.old (month_on file.now month) result out.new }
{
    let mut book = [0u32; BOOK_WORDS];
    month_into(&mut book, file, month, out)
}
