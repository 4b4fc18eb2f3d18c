// Prints the 1,201 entries of the table of months, one a line, from the Gregorian rule (02, T-08). It looks at neither
// its arguments nor its input. A write that fails is said on standard error.
#![tactic(auto)]

fn main(rt: HostRuntime) {
    let mut out = [0u8; month_lines::MOST_TEXT];
    let count = month_lines::table(&mut out);
    // said here, so that the program rests on `month_lines` alone
    if rt.write_all(&out[..count]).is_err() {
        let _ = eprintln!(rt; "month_table: write failed");
    }
}
