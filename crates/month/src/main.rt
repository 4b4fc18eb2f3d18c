// Reads a day file from standard input into a default book, and prints the report of the month that its only argument
// names (document 02, T-01). A read or a write that fails is said on standard error.
#![tactic(auto)]

use std::env::{Env, FillError};

// The longest argument that Linux passes has one byte less; one that did not fit would count as empty.
const MOST_ARGUMENT: usize = 131072;

// How many arguments there are without the program's name.
fn arguments(rt: &impl Env) -> usize {
    let mut found = 0;
    for number in 1..usize::MAX {
        if let Err(FillError::NotPresent) = rt.arg(number, &mut []) {
            break;
        }
        found = number;
    }
    found
}

// What names no month is refused as the month after the last.
fn month(rt: &impl Env) -> u32 {
    let mut argument = [0u8; MOST_ARGUMENT];
    let size = rt.arg(1, &mut argument).unwrap_or(0);
    month_argument::month_asked(arguments(rt), &argument[..size])
}

fn main(rt: HostRuntime) {
    // One byte more than a file may have, so that a longer one is seen.
    let mut buffer = [0u8; 65537];
    let mut out = [0u8; month_print::MOST_TEXT];
    let output = month_print::input::printed_from(
        &mut rt.stdin(),
        &mut buffer,
        month(&rt),
        &mut out,
    );
    let count = output.count;
    program_input::print(&rt, "month", &output, &out[..count]);
}
