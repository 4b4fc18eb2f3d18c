// A file read to its end and reported on. Of the system's readers no contract can say what is read: the work is `report`, on slices.
ghost use Rattle.std.specs.Prelude.{true, false, [], ◌≤◌, ◌<◌, IfOk, MatchResult, length, take};
ghost use Rattle.std.specs.Io.KnownBytes.{Consumes, IsAtEnd};
ghost use Rattle.text.specs.Text.{IsPrefixLen, Whole};
ghost use Rattle.report.specs.Report.{printed};

use program_input::Output;
use rules::Refusal;
use std::io::Read;

// The whole report on what a reader holds; a read that fails is refused by 2. One function for this and `printed_from`
// would take the work as a closure that writes to `out`, and the promises, which are most of it, would still stand here.
pub fn report_from<R: Read>(
    reader: &mut R,
    buffer: &mut [u8],
    out: &mut [u8; crate::MOST_TEXT],
) -> Output
    ensures read_in_bounds { IfOk result.read (λ read. read ≤ length buffer.new) }
    ensures bytes { IfOk result.read
        (λ read. Consumes (R.remaining reader.old) (R.remaining reader.new) (take read buffer.new)) }
    ensures end { IfOk result.read
        (λ read. read < length buffer.new → IsAtEnd (R.remaining reader.new)) }
    ensures whole { MatchResult result.read
        (λ read. Whole out.old (printed false (take read buffer.new)) result.count out.new)
        (λ _. Whole out.old (printed true []) result.count out.new) }
    ensures prefix_len { IsPrefixLen result.count out.new }
{
    let read = program_input::read_whole(reader, buffer);
    let count = match &read {
        Ok(read) => crate::report(&buffer[..*read], out),
        Err(_) => text::refused(Refusal::BadFile.into(), out),
    };
    Output { read, count }
}
