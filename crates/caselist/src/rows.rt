// A list as rows, one to a line: a letter for what to do, and up to fourteen figures. A figure is a letter, which counts as its
// byte, or a number, decimal, below zero after '-', or hexadecimal after 'x'. '#' starts a comment, and a line with nothing else is no row.
ghost use Rattle.std.specs.Prelude.{◌≤◌, length};

use std::io::Read;

const FIGURES: usize = 14;

// The line in the text, counted from 1, the letter, and the figures, 0 where the line has no more.
#[derive(Clone, Copy)]
pub struct Row {
    pub line: u64,
    pub call: u8,
    pub figures: [u64; FIGURES],
}

impl Row {
    // A row without a letter, which no program knows.
    pub const BLANK: Row = Row {
        line: 0,
        call: 0,
        figures: [0; FIGURES],
    };

    // The row on a line of the text; none where nothing stands before '#'.
    pub fn on(line: u64, text: &[u8]) -> Option<Row> {
        let said = text.split(|b| *b == b'#').next()?;
        let mut words = said.split(|b| *b == b' ').filter(|word| !word.is_empty());
        let call = letter(figure(words.next()?));
        let mut figures = [0; FIGURES];
        for (place, word) in figures.iter_mut().zip(words) {
            *place = figure(word);
        }
        Some(Row {
            line,
            call,
            figures,
        })
    }
}

// The low 32 bits.
pub fn low(x: u64) -> u32 {
    (x & 0xffffffff) as u32
}

// A number below zero in 32 bits: what has more keeps its low 31, and is below zero.
pub fn signed_low(x: u64) -> i32 {
    let sign = if x < 0x80000000 { 0 } else { 0x80000000 };
    (low(x) | sign).cast_signed()
}

// The byte of a letter.
pub fn letter(x: u64) -> u8 {
    (x & 0xff) as u8
}

fn digit(b: u8) -> u64 {
    let x = u64::from(b);
    if x < 65 { x % 16 } else { 9 + x % 8 }
}

// A figure's first byte with the digits after it, in 64 bits.
fn number(base: u64, first: u64, digits: &[u8]) -> u64
    requires { base ≤ 16 }
{
    digits.iter().fold(first, |value, b| {
        value % 0x1000000000000000 * base + digit(*b) % 16
    })
}

// A number below zero is 2^64 less its size.
fn figure(word: &[u8]) -> u64 {
    match word {
        [] => 0,
        [b'x', digits @ ..] => number(16, 0, digits),
        [b'-', digits @ ..] => number(10, 0, digits).wrapping_neg(),
        [b @ ..=b'9', digits @ ..] => number(10, digit(*b), digits),
        [b, digits @ ..] => number(10, u64::from(*b), digits),
    }
}

// Reads until the text is full, the input ends or a read fails, which ends a list (`program_input` refuses it); how many bytes came.
pub fn filled<R: Read>(input: &mut R, text: &mut [u8]) -> usize
    ensures { result ≤ length text.new }
{
    let mut done = 0;
    while done < text.len() {
        let count = input.read(&mut text[done..]).unwrap_or(0);
        if count == 0 {
            return done;
        }
        done += count;
    }
    done
}
