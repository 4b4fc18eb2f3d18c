// Internal: what the day-ahead balance reads of every party's day, by one scan of a checked book, and the parties detected
// by it. A caller meets each `requires`.
ghost use Rattle.std.specs.Prelude.{◌≡◌, true, ◌≤◌, ℕ, List, ltb, get_or};
ghost use Rattle.rules.specs.Entry.{key, legal, last_party, record_in};
ghost use Rattle.rules.specs.Words.{is_book, entries};
ghost use Rattle.rules.specs.Balance.{is_detected};
ghost use Rattle.cells.specs.Cells.{added, blank, AtMost};
ghost use Rattle.balance_formulas.specs.Bounded.{most_sum};
ghost use Rattle.repeated_pairs.specs.Flags.{flagged};
ghost use Rattle.detection.specs.Tables.{is_sale_type, is_read_type, last_type, side_of, is_read, table_cells, day_cells, table_of, cell_of, ahead_at, detected_among, checked};

use balance_formulas::Tolerances;
use repeated_pairs::parties::Flags;
use rules::Entry;
use rules::bounds::{LAST_PARTY, NUMBERS};
use rules::layout::{BILATERAL, STANDING};
use std::marker::Model;
use words::Book;

// The cells of each number: S, C but for the next two, capacity tender and import notification.
const PARTY_CELLS: usize = 4;

const SALES: usize = 0;

const COVER: usize = 1;

const CELLS: usize = PARTY_CELLS * NUMBERS;

// A bit for each type that the day-ahead balance reads: 1, 3, 4, 6, 7, 9, 10 and 12 to 16 (01, 'The two balances').
const READ_TYPES: u64 = (1 << 1)
    + (1 << 3)
    + (1 << 4)
    + (1 << 6)
    + (1 << 7)
    + (1 << 9)
    + (1 << 10)
    + (1 << 12)
    + (1 << 13)
    + (1 << 14)
    + (1 << 15)
    + (1 << 16);

// Two bits for each type, its cell: cover for 7, 9, 10 and 12 to 14, then 15 and 16, sales for the others.
const SIDES: u64 = (1 << 14)
    + (1 << 18)
    + (1 << 20)
    + (1 << 24)
    + (1 << 26)
    + (1 << 28)
    + (2 << 30)
    + (3 << 32);

// The cells of every party's day. Clauses see the list of the cells.
#[derive(Drop)]
struct Table {
    cells: [u64; CELLS],
}

impl Model for Table {
    ghost Value = { List ℕ };

    ghost view = { λ t. t.cells };
}

// The sales of the day-ahead balance (Article 7).
pub fn is_sale(entry_type: u32) -> bool
    ensures { result ≡ is_sale_type entry_type }
{
    (entry_type == 1) | (entry_type == 3) | (entry_type == 4) | (entry_type == BILATERAL)
}

// Whether that balance reads a type.
fn is_read_type(entry_type: u32) -> bool
    requires { entry_type ≤ last_type }
    ensures { result ≡ is_read_type entry_type }
{
    (READ_TYPES >> entry_type) % 2 == 1
}

// The cell of a type among its party's.
fn side_of(entry_type: u32) -> usize
    requires { entry_type ≤ last_type }
    ensures { result ≡ side_of entry_type }
{
    ((SIDES >> (2 * entry_type)) % 4) as usize
}

// Whether an entry is read: standing, of the day, of such a type, no export.
fn is_read(e: Entry, day: u32) -> bool
    requires { (key (record_in e)).type ≤ last_type }
    ensures { result ≡ is_read day (record_in e).label }
{
    (e.status == STANDING)
        & (e.key.day == day)
        & is_read_type(e.key.entry_type)
        & !((e.key.entry_type == BILATERAL) & (e.key.counterparty == 0))
}

impl Table {
    // An entry's amount goes to its party's cell and, of a bilateral sale, to its counterparty's cover.
    fn add_entry(&mut self, e: Entry, day: u32)
        requires e_value { legal (record_in e) ≡ true }
        requires at_most { AtMost most_sum self.old }
        ensures { self.new ≡ added (day_cells day) (record_in e) self.old }
    {
        let side = side_of(e.key.entry_type);
        let amount = cells::amount_if(is_read(e, day), e.amount);
        let sold = cells::amount_if(e.key.entry_type == BILATERAL, amount);
        cells::add_to(
            &mut self.cells,
            PARTY_CELLS * (e.key.party as usize) + side,
            amount,
        );
        cells::add_to(
            &mut self.cells,
            PARTY_CELLS * (e.key.counterparty as usize) + COVER,
            sold,
        );
    }

    // One scan of the book fills the table.
    fn fill(&mut self, book: &Book, day: u32)
        requires { self.old ≡ blank table_cells }
        ensures table { self.new ≡ table_of day (entries book.now) }
        ensures book { is_book book.now ≡ true }
    {
        for i in 0..book.count() {
            self.add_entry(book.entry(i), day);
        }
    }

    // Whether a party's day-ahead balance is detected: above zero. Without a sale it is not.
    fn is_detected(&self, party: u32, tolerances: Tolerances) -> bool
        requires party_le_last_party { party ≤ last_party }
        requires at_most { AtMost most_sum self.now }
        ensures { result ≡ is_detected (ahead_at tolerances.coefficient tolerances.tolerance self.now party) }
    {
        let at = PARTY_CELLS * (party as usize);
        let sales = self.cells[at + SALES];
        if sales == 0 {
            return false;
        }
        let cover = self.cells[at + COVER] + self.cells[at + 2].max(self.cells[at + 3]);
        position::detected(tolerances.balanced(sales, cover))
    }

    // Whether a party has a sale.
    fn has_sale(&self, party: u32) -> bool
        requires { party ≤ last_party }
        ensures { result ≡ ltb 0 (get_or self.now (cell_of party 0) 0) }
    {
        0 < self.cells[PARTY_CELLS * (party as usize) + SALES]
    }

    // Flags the detected ones among some parties. Most have no sale: nothing is stored for these.
    fn flag_detected(&self, tolerances: Tolerances, among: &Flags) -> Flags
        requires { AtMost most_sum self.now }
        ensures { flagged result ≡ detected_among self.now tolerances.coefficient tolerances.tolerance among.now }
    {
        let mut flags = Flags::none();
        for p in 1..LAST_PARTY + 1 {
            if among.has(p) && self.has_sale(p) {
                flags.put(p, self.is_detected(p, tolerances));
            }
        }
        flags
    }
}

// Flags the parties among some whose day-ahead balance of the day is detected.
pub fn detect(book: &Book, day: u32, among: &Flags) -> Flags
    ensures { flagged result ≡ checked book.now day among.now }
{
    let mut table = Table {
        cells: [0u64; CELLS],
    };
    table.fill(book, day);
    let tolerances = Tolerances {
        coefficient: book.coefficient(),
        tolerance: book.tolerance(),
    };
    table.flag_detected(tolerances, among)
}
