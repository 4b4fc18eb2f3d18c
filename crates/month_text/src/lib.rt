// Internal: a month report as text (02, T-01). A caller meets each `requires`.
#![tactic(auto)]

ghost use Rattle.std.specs.Prelude.{◌+◌, ◌*◌, ◌≤◌, ◌∷◌, length};
ghost use Rattle.rules.specs.MonthReport.{line_sums};
ghost use Rattle.text.specs.Text.{decimal, each_from, Wrote};
ghost use Rattle.text.specs.Written.{Puts};
ghost use Rattle.month_text.specs.ReportText.{sums_text, line_text, line_at, day_text, report_text};

use rules::{LINE_SUMS, MonthReport};
use text::Out;

fn put_sum(sum: u64, out: &mut Out<'_>)
    ensures { Puts out.old (32 ∷ decimal sum) out.new }
{
    out.put(b' ');
    out.put_number(sum);
}

fn put_sums(sums: &[u64], out: &mut Out<'_>)
    ensures { Puts out.old (sums_text sums.now) out.new }
{
    for sum in sums {
        put_sum(*sum, out);
    }
}

// The line at a place of a report, after the number of its day or month.
fn put_line(number: u64, lines: &[u64], line: usize, out: &mut Out<'_>)
    requires { line_sums * (line + 1) ≤ length lines.now }
    ensures { Puts out.old (line_text number (line_at lines.now line)) out.new }
{
    let start = LINE_SUMS * line;
    out.put_number(number);
    put_sums(&lines[start..start + LINE_SUMS], out);
    out.put(b'\n');
}

fn put_days(first: u32, days: u32, lines: &[u64], out: &mut Out<'_>)
    requires { line_sums * days ≤ length lines.now }
    ensures { Puts out.old (each_from (day_text first lines.now) days 0) out.new }
{
    for day in 0..days {
        put_line(u64::from(first) + u64::from(day), lines, day as usize, out);
    }
}

// The lines of the days and that of the totals, or the line of a refusal.
pub fn put_report(report: MonthReport, out: &mut [u8]) -> usize
    requires { report.days ≤ 31 }
    ensures { Wrote out.old 0 (report_text report) result out.new }
{
    if report.answer != 0 {
        return text::refused(report.answer, out);
    }
    let mut text = Out::new(out);
    put_days(report.first_day, report.days, &report.lines, &mut text);
    put_line(
        u64::from(report.month),
        &report.lines,
        report.days as usize,
        &mut text,
    );
    text.count()
}
