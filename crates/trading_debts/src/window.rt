// Internal: the money of a party on the 30 days before day g, in a table of days and types (01, 'Collateral', Trading). A caller meets each `requires`.
ghost use Rattle.std.specs.Prelude.{◌≡◌, true, ◌≤◌, ◌<◌, MatchOption};
ghost use Rattle.rules.specs.Entry.{most_money};
ghost use Rattle.rules.specs.Words.{is_book, entries};
ghost use Rattle.entry_words.specs.Words.{entry_in};
ghost use Rattle.cells.specs.Cells.{added, AtMost};
ghost use Rattle.trading_debts.specs.Window.{most_in_cell, cell_count, cell_of, window_cells, window_of};

use entry_words::EntryWords;
use rules::layout::STANDING;
use words::Book;

// The days of the window, and its cells: four for each day.
pub const WINDOW_DAYS: u32 = 30;

const CELLS: usize = 120;

// A party's money by day and type: cell 4 × i + j is that of type 17 + j on the day i days before the latest. One flat table, as
// the laws of `cells` have it.
#[derive(Drop)]
pub struct Window {
    pub cells: [u64; CELLS],
    ghost within: { AtMost most_in_cell cells },
}

// The cell that an entry counts in, if it counts.
fn cell_of(e: EntryWords, party: u32, day: u32) -> Option<usize>
    ensures { MatchOption result (cell_of party day (entry_in e).label ≡ cell_count) (λ cell. (cell < cell_count) × (cell ≡ cell_of party day (entry_in e).label)) }
{
    if e.party() != party {
        return None;
    }
    let entry_type = e.entry_type();
    let entry_day = e.day();
    let counts = (e.status() == STANDING)
        & entry_checks::is_money(entry_type)
        & (entry_day < day)
        & (day <= entry_day + WINDOW_DAYS);
    if counts {
        Some((4 * (day - 1 - entry_day) + (entry_type - 17)) as usize)
    } else {
        None
    }
}

// Adds an entry to its cell.
#[tactic(auto, unfolding(cells::specs::Cells::added, cells::specs::Cells::add_to_each))]
fn add_entry(cells: &mut [u64; CELLS], e: EntryWords, party: u32, day: u32)
    requires amount { (entry_in e).amount ≤ most_money }
    requires cells { AtMost most_in_cell cells.old }
    ensures { cells.new ≡ added (window_cells party day) (entry_in e) cells.old }
{
    if let Some(cell) = cell_of(e, party, day) {
        cells[cell] += e.amount();
    }
}

impl Window {
    // The sums of a party's money on each day of the window, by one pass over the book. A caller learns that it is a book.
    pub fn of(book: &Book<'_>, party: u32, day: u32) -> Window
        ensures cells { result.cells ≡ window_of party day (entries book.now) }
        ensures book { is_book book.now ≡ true }
    {
        let mut cells = [0u64; CELLS];
        for i in 0..book.count() {
            add_entry(&mut cells, book.entry_words(i), party, day);
        }
        Window { cells }
    }
}
