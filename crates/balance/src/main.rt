// Reads a day file from standard input into a default book, and prints each party and day that it names
// with both balances (document 01, 'Day file'). A read or a write that fails is said on standard error.
#![tactic(auto)]

fn main(rt: HostRuntime) {
    // One byte more than a file may have, so that a longer one is seen.
    let mut buffer = [0u8; 65537];
    let mut out = [0u8; report::MOST_TEXT];
    let output = report::input::report_from(&mut rt.stdin(), &mut buffer, &mut out);
    let count = output.count;
    program_input::print(&rt, "balance", &output, &out[..count]);
}
