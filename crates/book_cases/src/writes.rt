// What the test itself writes: the words that the list expects, rubbish, and plain entries.
use caselist::book_words::{put, put_entry};
use caselist::pair::Pair;
use caselist::rows::{Row, low};

// A word into both alike.
pub fn both(lent: &mut Pair, at: usize, w: u32) {
    let _ = put(lent.book, at, w);
    let _ = put(lent.expected, at, w);
}

// The count, coefficient and tolerance that an opening leaves.
pub fn head(expected: &mut [u32], figures: [u64; 3]) {
    for (place, figure) in expected.iter_mut().zip(figures) {
        *place = low(figure);
    }
}

// The words that the list expects of an entry, at its place, and the count raised to it.
pub fn append(expected: &mut [u32], row: Row) {
    let [
        _,
        _,
        _,
        _,
        _,
        number,
        party,
        day,
        figures,
        low_amount,
        high_amount,
        ..
    ] = row.figures;
    let _ = put(expected, 0, low(0x60000001 + number % 4096));
    let entry = [party, day, figures, low_amount, high_amount].map(low);
    put_entry(expected, low(number), entry);
}

fn rubbish(words: &mut [u32], start: u32, n: u32) {
    for place in words.iter_mut().skip(start as usize).take(n as usize) {
        *place = 0xfffffffe;
    }
}

fn plain_entry(i: u32) -> [u32; 5] {
    [
        0x10000001 + i % 999,
        0x20000000 + i % 36525,
        0x30000001 + i % 5,
        0x40000000 + i % 1000,
        0x50000000 + i % 3,
    ]
}

fn plain(words: &mut [u32], n: u32) {
    let _ = put(words, 0, 0x60000000 + n % 4096);
    for i in 0..n {
        put_entry(words, i, plain_entry(i));
    }
}

// R: rubbish; F: plain entries and their count; else one word.
fn write(words: &mut [u32], row: Row) {
    let [first, second, ..] = row.figures;
    match row.call {
        b'R' => rubbish(words, low(first), low(second)),
        b'F' => plain(words, low(first)),
        _ => {
            let _ = put(words, low(first) as usize, low(second));
        }
    }
}

pub fn write_both(words: &mut Pair, row: Row) {
    write(words.book, row);
    write(words.expected, row);
}
