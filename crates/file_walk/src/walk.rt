// The walks of a day file's bytes: its items in order, whether its blocks and lines have their form, and, internal, a walk by a cursor.
// A caller of the internal functions meets each `requires`.
ghost use Rattle.std.specs.Prelude.{◌≡◌, true, ◌+◌, ◌≤◌, ◌<◌, [], length, MatchOption};
ghost use Rattle.std.specs.Iterator.{YieldsFirstBy, item_count};
ghost use Rattle.rules.specs.DayFile.{head_item, is_head, is_line, is_shaped, items, words_of};
ghost use Rattle.file_walk.specs.Walk.{item_in, left_items, start, is_more, head_at, past_step, line_at, head_past, line_past, passed_on};

use crate::reader::{Reader, words_from};
use crate::{Cursor, Line};
use rules::Key;
use rules::layout::{HIGH_AMOUNT, KIND, LOW_AMOUNT, PARTIES, STATUS, TYPES};

// What a file holds: a line, with the party and day of its block, or a block without lines.
#[derive(Clone, Copy)]
pub enum Item {
    Line { key: Key, amount: u64 },
    EmptyBlock { party: u32, day: u32 },
}

// The items still to come: how far the reader has come, the lines of the block that are left, and the block's party and day.
#[derive(Clone, Copy)]
pub struct Items<'a> {
    reader: Reader<'a>,
    left: u32,
    party: u32,
    day: u32,
}

impl<'a> Items<'a> {
    // All items of a file, in its order.
    pub fn of(file: &'a [u8]) -> Items<'a>
        ensures { left_items result ≡ items file.now }
    {
        Items {
            reader: Reader::new(file, 0),
            left: 0,
            party: 0,
            day: 0,
        }
    }

    // Goes past the head of the next block, if there is one.
    fn begin_block(&mut self) -> Option<()>
        requires { self.old.left ≡ 0 }
        ensures { MatchOption result ((left_items self.old ≡ []) × (left_items self.new ≡ [])) (λ _. left_items self.old ≡ head_item self.new.left self.new.party self.new.day (left_items self.new)) }
    {
        let (reader, [first, second]) = self.reader.take_words::<2>();
        let (first, second) = (first? % KIND, second? % KIND);
        self.reader = reader;
        self.left = first / PARTIES;
        self.party = first % PARTIES;
        self.day = second;
        Some(())
    }

    // The block's next line, if it is whole.
    fn next_line(&mut self) -> Option<Item>
        requires { 0 < self.old.left }
        ensures { YieldsFirstBy item_in left_items self.old result self.new }
    {
        let (reader, [named, low, high]) = self.reader.take_words::<3>();
        let (named, low, high) = (named? % KIND, low? % KIND, high? % KIND);
        self.reader = reader;
        self.left -= 1;
        Some(Item::Line {
            key: Key {
                party: self.party,
                day: self.day,
                entry_type: named % TYPES,
                counterparty: named / TYPES,
            },
            amount: u64::from(low) + u64::from(high) * LOW_AMOUNT,
        })
    }
}

impl<'a> Iterator for Items<'a> {
    type Item = Item;

    ghost next_gives = { YieldsFirstBy item_in left_items };

    ghost remaining = { item_count left_items };

    fn next(&mut self) -> Option<Item> {
        if self.left == 0 {
            self.begin_block()?;
            if self.left == 0 {
                return Some(Item::EmptyBlock {
                    party: self.party,
                    day: self.day,
                });
            }
        }
        self.next_line()
    }
}

// Where a walk by a cursor begins.
pub fn begin() -> Cursor
    ensures { result ≡ start }
{
    Cursor {
        at: 0,
        left: 0,
        party: 0,
        day: 0,
    }
}

// Whether the next head or line is whole.
#[tactic(auto, unfolding(crate::specs::Walk::is_more))]
pub fn more(file: &[u8], c: Cursor) -> bool
    requires { c.at ≤ length file.now }
    ensures { result ≡ is_more file.now c }
{
    let rest = file.len() - c.at;
    if c.left == 0 { 8 <= rest } else { 12 <= rest }
}

// The cursor past the block's head at a byte.
#[tactic(auto, using(crate::proofs::ReadLaws::found_word), unfolding(crate::specs::Walk::head_at))]
pub fn head_at(file: &[u8], at: usize) -> Cursor
    requires { at + 8 ≤ length file.now }
    ensures { result ≡ head_at file.now at }
{
    let [first, second] = words_from::<2>(file, at);
    let (first, second) = (first.unwrap() % KIND, second.unwrap() % KIND);
    Cursor {
        at: at + 8,
        left: first / PARTIES,
        party: first % PARTIES,
        day: second,
    }
}

// The line that a walk has come to.
#[tactic(auto, using(crate::proofs::ReadLaws::found_word), unfolding(crate::specs::Walk::line_at))]
pub fn line_at(file: &[u8], c: Cursor) -> Line
    requires { c.at + 12 ≤ length file.now }
    ensures { result ≡ line_at file.now c }
{
    let [named, low, high] = words_from::<3>(file, c.at);
    let (named, low, high) = (
        named.unwrap() % KIND,
        low.unwrap() % KIND,
        high.unwrap() % KIND,
    );
    Line {
        key: Key {
            party: c.party,
            day: c.day,
            entry_type: named % TYPES,
            counterparty: named / TYPES,
        },
        amount: u64::from(low) + u64::from(high) * LOW_AMOUNT,
    }
}

// One head or line further.
#[tactic(auto, unfolding(crate::specs::Walk::is_more, crate::specs::Walk::past_step))]
pub fn advance(file: &[u8], c: Cursor) -> Cursor
    requires { is_more file.now c ≡ true }
    ensures { result ≡ past_step file.now c }
{
    if c.left == 0 {
        return head_at(file, c.at);
    }
    Cursor {
        at: c.at + 12,
        left: c.left - 1,
        ..c
    }
}

// How the form of a file stands: right so far, with so many lines of the block still to come; ended with a block; or not right.
#[derive(Clone, Copy, Debug, PartialEq, Eq)]
pub enum Form {
    Open(u32),
    Ended,
    Broken,
}

// A pass over a file: its one reader, and how the form stands.
#[derive(Clone, Copy)]
pub struct Pass<'a> {
    pub reader: Reader<'a>,
    pub form: Form,
}

fn head_ok(first: u32, second: u32) -> bool
    ensures { result ≡ is_head first second }
{
    (first / KIND == 1) & (second / KIND == 2)
}

fn line_ok(named: u32, low: u32, high: u32) -> bool
    ensures { result ≡ is_line named low high }
{
    (named / KIND == 3)
        & (named % KIND < STATUS)
        & (low / KIND == 4)
        & (high / KIND == 5)
        & (high % KIND < HIGH_AMOUNT)
}

// The form past a head: its kinds right. A file may end only where a block has ended.
fn head_past(head: [Option<u32>; 2]) -> Form
    ensures { result ≡ head_past head }
{
    match head {
        [Some(first), Some(second)] if head_ok(first, second) => {
            Form::Open(first % KIND / PARTIES)
        }
        [None, _] => Form::Ended,
        _ => Form::Broken,
    }
}

// The form past a line: its kinds right, and no spare or status bit set.
fn line_past(left: u32, line: [Option<u32>; 3]) -> Form
    requires { 0 < left }
    ensures { result ≡ line_past left line }
{
    match line {
        [Some(named), Some(low), Some(high)] if line_ok(named, low, high) => Form::Open(left - 1),
        _ => Form::Broken,
    }
}

// One head or line further, where so many lines of the block are left.
fn pass_on<'a>(reader: Reader<'a>, left: u32) -> Pass<'a>
    ensures { result ≡ passed_on reader.entry left }
{
    if left == 0 {
        let (reader, head) = reader.take_words();
        return Pass {
            reader,
            form: head_past(head),
        };
    }
    let (reader, line) = reader.take_words();
    Pass {
        reader,
        form: line_past(left, line),
    }
}

// Whether the bytes are whole blocks: one reader from the first word to the last, one head or line after the other.
pub fn shaped(file: &[u8]) -> bool
    ensures { result ≡ is_shaped 0 (words_of file.now) }
{
    let mut pass = Pass {
        reader: Reader::new(file, 0),
        form: Form::Open(0),
    };
    while let Form::Open(left) = pass.form {
        pass = pass_on(pass.reader, left);
    }
    pass.form == Form::Ended
}
