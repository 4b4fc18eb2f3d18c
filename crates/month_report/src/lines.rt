// Internal: the lines of a month report, by one pass over a checked book (02, T-01). A caller meets each `requires`.
ghost use Rattle.std.specs.Prelude.{◌≡◌, true, ◌≤◌};
ghost use Rattle.rules.specs.Words.{entry_ok, entries};
ghost use Rattle.rules.specs.MonthReport.{line_place, report_figures};
ghost use Rattle.cells.specs.Cells.{added, blank, AtMost};
ghost use Rattle.entry_words.specs.Words.{words_in, entry_in};
ghost use Rattle.month_report.specs.Lines.{most_in_figure, report_cells, lines_of};

use crate::days::MonthDays;
use entry_words::EntryWords;
use rules::layout::UPDATED_PROGRAM;
use rules::{LINE_SUMS, REPORT_FIGURES};
use words::Book;

type Lines = [u64; REPORT_FIGURES];

// Where the sum of a type stands in a line: that of type 22 last.
fn line_place(entry_type: u32) -> usize
    requires { (1 ≤ entry_type) × (entry_type ≤ 22) }
    ensures { result ≡ line_place entry_type }
{
    (entry_type - 1 - u32::from(entry_type == UPDATED_PROGRAM)) as usize
}

// Adds an entry to its day's sum and to the month's, in the line after the last day.
fn add_entry(lines: &mut Lines, e: EntryWords, month: MonthDays)
    requires e_value { entry_ok (words_in e) ≡ true }
    requires at_most { AtMost most_in_figure lines.old }
    ensures { lines.new ≡ added (report_cells month.first month.count) (entry_in e) lines.old }
{
    let counts = month.counts(e);
    let line = month.line_if(counts, e);
    let place = line_place(e.entry_type());
    let amount = cells::amount_if(counts, e.amount());
    cells::add_to(lines, LINE_SUMS * line + place, amount);
    cells::add_to(lines, LINE_SUMS * (month.count as usize) + place, amount);
}

// The lines of a month.
pub fn fill(book: &Book, month: MonthDays, lines: &mut Lines)
    requires { lines.old ≡ blank report_figures }
    ensures { lines.new ≡ lines_of month.first month.count (entries book.now) }
{
    for i in 0..book.count() {
        add_entry(lines, book.entry_words(i), month);
    }
}
