// Internal: the lines of a checked file stored into a book. A caller meets each `requires`.
ghost use Rattle.std.specs.Prelude.{◌≡◌, true, ◌+◌, ◌*◌, ◌≤◌, length};
ghost use Rattle.numbers.specs.Tests.{all};
ghost use Rattle.rules.specs.Entry.{legal};
ghost use Rattle.rules.specs.DayFile.{items, lines_of};
ghost use Rattle.dayfile.specs.Stored.{stored_from};

use file_walk::walk::{Item, Items};
use rules::layout::ENTRY_WORDS;

// Stores all lines after the first `number` entries.
pub fn store_lines(book: &mut [u32], file: &[u8], number: u32)
    requires file_in_bounds { 3 + 5 * (number + length (lines_of (items file.now))) ≤ length book.old }
    requires file_value { all legal (lines_of (items file.now)) ≡ true }
    ensures { book.new ≡ stored_from book.old (3 + 5 * number) (items file.now) }
{
    let mut place = words::place_of(number);
    for item in Items::of(file) {
        if let Item::Line { key, amount } = item {
            entry_stores::store_entry(book, place, key, amount);
            place += ENTRY_WORDS;
        }
    }
}
