// What the program `month_table` prints: the entries of the table of months, from the Gregorian rule (02, T-08).
#![tactic(auto)]

ghost use Rattle.text.specs.Text.{IsPrefixLen, Wrote, Whole};
ghost use Rattle.month_lines.specs.Lines.{table_text};

use calendar::rule::month_start;
use text::Out;

// No text of the table is longer.
pub const MOST_TEXT: usize = 7206;

// The months of 2000 to 2099, and the end entry.
const ENTRIES: u32 = 1201;

fn put_lines(out: &mut [u8]) -> usize
    ensures { Wrote out.old 0 table_text result out.new }
{
    let mut text = Out::new(out);
    for month in 0..ENTRIES {
        text.put_number(month_start(month));
        text.put(b'\n');
    }
    text.count()
}

// The whole table, and how many bytes it has.
pub fn table(out: &mut [u8; MOST_TEXT]) -> usize
    ensures whole { Whole out.old table_text result out.new }
    ensures prefix_len { IsPrefixLen result out.new }
{
    put_lines(out)
}
