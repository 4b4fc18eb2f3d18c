// The parties and days that a file names: blocks, and counterparties above 0.
#![tactic(auto)]

ghost use Rattle.std.specs.Prelude.{◌≡◌, true, false, ◌||◌, ℕ, ◌<◌, length, get_or, set};
ghost use Rattle.rules.specs.DayFile.{item_names, file_names};
ghost use Rattle.file_walk.specs.Walk.{item_in};
ghost use Rattle.file_names.specs.Names.{is_named, item_has, names_party};

use file_walk::walk::{Item, Items};
use rules::Key;

fn is_named(key: Key, party: u32) -> bool
    ensures { result ≡ is_named key.party key.counterparty party }
{
    (key.party == party) | ((0 < key.counterparty) & (key.counterparty == party))
}

// A number past the table is not marked. By index, since the library's `get_mut` does not say what the slice ends as.
fn mark(table: &mut [bool], number: u32)
    ensures { table.new ≡ set table.old number true }
{
    let at = number as usize;
    if at < table.len() {
        table[at] = true;
    }
}

fn mark_day(item: Item, party: u32, days: &mut [bool])
    ensures { (d : ℕ) → d < length days.old → get_or days.new d false ≡ get_or days.old d false || item_names party d (item_in item) }
{
    match item {
        Item::Line { key, .. } if is_named(key, party) => mark(days, key.day),
        Item::EmptyBlock { party: named, day } if named == party => mark(days, day),
        _ => {}
    }
}

// Marks the days on which a file names the party.
pub fn mark_days(file: &[u8], party: u32, days: &mut [bool])
    ensures { (d : ℕ) → d < length days.old → get_or days.new d false ≡ get_or days.old d false || file_names file.now party d }
{
    for item in Items::of(file) {
        mark_day(item, party, days);
    }
}

fn mark_party(item: Item, parties: &mut [bool])
    ensures { (p : ℕ) → p < length parties.old → get_or parties.new p false ≡ get_or parties.old p false || item_has p (item_in item) }
{
    match item {
        Item::Line { key, .. } => {
            mark(parties, key.party);
            if key.counterparty != 0 {
                mark(parties, key.counterparty);
            }
        }
        Item::EmptyBlock { party, .. } => mark(parties, party),
    }
}

// Marks the parties that a file names, on whatever day.
pub fn mark_parties(file: &[u8], parties: &mut [bool])
    ensures { (p : ℕ) → p < length parties.old → get_or parties.new p false ≡ get_or parties.old p false || names_party file.now p }
{
    for item in Items::of(file) {
        mark_party(item, parties);
    }
}
