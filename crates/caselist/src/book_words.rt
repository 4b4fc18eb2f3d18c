// Words of a book that a test writes itself, where there are so many.
use crate::rows::low;

pub fn word(words: &[u32], i: usize) -> u32 {
    words.get(i).copied().unwrap_or(0)
}

// Whether there is such a word to be written.
pub fn put(words: &mut [u32], i: usize, w: u32) -> bool {
    match words.get_mut(i) {
        Some(place) => {
            *place = w;
            true
        }
        None => false,
    }
}

// A word of this kind.
pub fn of_kind(kind: u32, value: u64) -> u32 {
    kind % 16 * 0x10000000 + low(value) % 0x10000000
}

// The five words of an entry, by its number.
pub fn put_entry(words: &mut [u32], number: u32, entry: [u32; 5]) {
    let at = 3 + 5 * (number as usize);
    let Some(rest) = words.get_mut(at..) else {
        return;
    };
    for (place, word) in rest.iter_mut().zip(entry) {
        *place = word;
    }
}

// Type and counterparty as the kind 3 word has them.
pub fn named(entry_type: u64, counterparty: u64) -> u64 {
    entry_type % 256 + 256 * (counterparty % 65536)
}

// The words of a standing entry of these figures: its type and counterparty are one.
pub fn standing(party: u64, day: u64, figures: u64, amount: u64) -> [u32; 5] {
    [
        of_kind(1, party),
        of_kind(2, day),
        of_kind(3, figures),
        of_kind(4, amount),
        of_kind(5, amount / 0x10000000),
    ]
}
