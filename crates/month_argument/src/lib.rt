// The month that the arguments of the program `month` name (02, T-01).
#![tactic(auto)]

ghost use Rattle.std.specs.Prelude.{◌≡◌, ◌<◌, MatchOption};
ghost use Rattle.calendar.specs.Calendar.{months};
ghost use Rattle.month_argument.specs.Argument.{month_named};
ghost use Rattle.month_argument.specs.Longer.{longer, month_from};

use rules::bounds::MONTHS;

// The month of what names none: a report refuses it.
pub const NO_MONTH: u32 = MONTHS;

// A number with one digit more, as long as it is a month's.
fn longer(number: u32, byte: u8) -> Option<u32>
    requires { number < months }
    ensures { result ≡ longer number byte }
{
    if !byte.is_ascii_digit() {
        return None;
    }
    let longer = 10 * number + u32::from(byte - b'0');
    if longer < MONTHS { Some(longer) } else { None }
}

// More digits make no smaller number, so the first that is too large ends it.
fn month_of(digits: &[u8]) -> Option<u32>
    ensures { result ≡ month_from 0 digits.now }
{
    let mut number = 0;
    for digit in digits {
        number = longer(number, *digit)?;
    }
    Some(number)
}

// Of so many arguments, without the program's name, the only one's bytes.
pub fn month_named(arguments: usize, argument: &[u8]) -> Option<u32>
    ensures { MatchOption result (month_named arguments argument.now ≡ months)
        (λ month. (month < months) × (month_named arguments argument.now ≡ month)) }
{
    if arguments != 1 {
        return None;
    }
    if argument.is_empty() {
        return None;
    }
    month_of(argument)
}

// The month that the program takes for its arguments: NO_MONTH where they name none.
pub fn month_asked(arguments: usize, argument: &[u8]) -> u32
    ensures { result ≡ month_named arguments argument.now }
{
    month_named(arguments, argument).unwrap_or(NO_MONTH)
}
