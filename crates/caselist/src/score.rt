// A list's run: how many words are lent, how many answers of a group were compared, and how many of them differ from the list.
use crate::rows::{Row, filled, low};
use std::io::{Read, Stdout};

// A list has this many rows: each further one is blank, and so wrong.
const MOST_ROWS: usize = 1000;

#[derive(Clone, Copy)]
pub struct Score {
    pub out: Stdout,
    pub lent: usize,
    pub checks: u64,
    pub wrong: u64,
}

impl Score {
    pub fn new(out: Stdout) -> Score {
        Score {
            out,
            lent: 0,
            checks: 0,
            wrong: 0,
        }
    }

    // How many words of a book are lent.
    pub fn lent(&self) -> usize {
        self.lent
    }

    // One check more, of this line; a line that is wrong is named.
    pub fn check(&mut self, line: u64, ok: bool) {
        self.checks = self.checks.wrapping_add(1);
        if !ok {
            self.wrong = self.wrong.wrapping_add(1);
            let _ = println!(self.out; "line {line} is wrong");
        }
    }

    pub fn print(&self) {
        let checks = self.checks;
        let wrong = self.wrong;
        let _ = println!(self.out; "{checks} checks, {wrong} wrong");
    }

    // A group's counts are written, and the next group begins.
    fn end_group(&mut self, group: u64) {
        let _ = print!(self.out; "group {group}: ");
        self.print();
        self.checks = 0;
        self.wrong = 0;
    }
}

// Each row of a list in turn. What ends a group, or says how many words are lent from there on, asks nothing of the program.
pub fn run<R: Read, F: FnMut(Row, &mut Score)>(input: &mut R, out: Stdout, mut judge: F)
    requires { F.IsAlwaysCallable judge }
{
    let mut text = [0u8; 65536];
    let size = filled(input, &mut text);
    let end = text[..size].iter().rposition(|b| *b == b'\n').unwrap_or(0);
    let mut score = Score::new(out);
    let mut rows = 0;
    for (line, said) in (1..u64::MAX).zip(text[..end].split(|b| *b == b'\n')) {
        let Some(row) = Row::on(line, said) else {
            continue;
        };
        let row = if rows < MOST_ROWS {
            rows += 1;
            row
        } else {
            Row::BLANK
        };
        match row.call {
            b'G' => score.end_group(row.figures[0]),
            b'L' => score.lent = low(row.figures[0]) as usize,
            _ => judge(row, &mut score),
        }
    }
}
