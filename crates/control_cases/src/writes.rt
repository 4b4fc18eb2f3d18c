// What the test itself writes: entries, marks and statuses.
use caselist::book_words::{of_kind, put, put_entry, standing, word};
use caselist::pair::Pair;
use caselist::rows::{Row, low};

// The three words that opening leaves.
pub fn head(words: &mut [u32], row: Row) {
    let [coefficient, tolerance, ..] = row.figures;
    let head = [0x60000000, of_kind(7, coefficient), of_kind(8, tolerance)];
    for (place, word) in words.iter_mut().zip(head) {
        *place = word;
    }
}

// Five words at the next place, and the count raised.
pub fn append(words: &mut [u32], entry: [u32; 5]) {
    let n = word(words, 0) % 4096;
    let _ = put(words, 0, 0x60000001 + n);
    put_entry(words, n, entry);
}

// The status bits of a standing entry are raised.
pub fn restatus(words: &mut [u32], number: u32, status: u32) {
    let at = 5 + 5 * (number as usize);
    let figures = word(words, at) % 0x40000000 + status % 0x04000000;
    let _ = put(words, at, figures);
}

// Many bilateral sales: the i-th of party 1 + i % 499 to 500 + i % 499.
fn sales(words: &mut [u32], n: u64, day: u64, amount: u64) {
    for i in 0..n {
        let figures = 6 + 256 * (500 + i % 499);
        append(words, standing(1 + i % 499, day, figures, amount));
    }
}

// Entries from a number on become cancelled.
fn cancelled(words: &mut [u32], first: u32, n: u32) {
    for i in 0..n {
        restatus(words, first % 4096 + i % 4096, 0x02000000);
    }
}

// E: sales; S: a word; K and M: entries cancelled.
fn write(words: &mut [u32], row: Row) {
    let [first, second, third, ..] = row.figures;
    match row.call {
        b'E' => sales(words, first, second, third),
        b'S' => {
            let _ = put(words, low(first) as usize, low(second));
        }
        _ => cancelled(words, low(first), low(second)),
    }
}

// Into both alike, or by M into the words that are expected alone.
pub fn write_both(words: &mut Pair, row: Row) {
    write(words.expected, row);
    if row.call != b'M' {
        write(words.book, row);
    }
}
