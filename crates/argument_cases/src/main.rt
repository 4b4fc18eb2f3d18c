// The month that arguments name, against the list on standard input: how many arguments there are, the month that must come
// back, and after a space the bytes of the first. '#' at a line's start makes it a comment.
#![tactic(auto)]

use caselist::score::Score;

// What stands before the first space, and what stands after it.
fn at_space(text: &[u8]) -> Option<(&[u8], &[u8])> {
    let space = text.iter().position(|b| *b == b' ')?;
    let (before, rest) = text.split_at(space);
    Some((before, rest.split_first()?.1))
}

// The number that digits write, below 10^7.
fn number(digits: &[u8]) -> u32 {
    digits.iter().fold(0, |value, b| { value % 1000000 * 10 + u32::from(*b % 16) })
}

// Whether what comes back for so many arguments, the first of them at the end of the line, is the month before it.
fn holds(line: &[u8]) -> bool {
    let Some((arguments, rest)) = at_space(line) else {
        return false;
    };
    let Some((month, argument)) = at_space(rest) else {
        return false;
    };
    month_argument::month_asked(number(arguments) as usize, argument) == number(month)
}

fn main(rt: HostRuntime) {
    let mut text = [0u8; 16384];
    let size = caselist::rows::filled(&mut rt.stdin(), &mut text);
    let mut score = Score::new(rt.stdout());
    for (at, line) in (1..u64::MAX).zip(text[..size].split(|b| *b == b'\n')) {
        match line {
            [] | [b'#', ..] => {}
            _ => score.check(at, holds(line)),
        }
    }
    score.print();
}
