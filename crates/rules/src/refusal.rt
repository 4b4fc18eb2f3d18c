// Why a call comes back (01, 'Why a call comes back').
ghost use Rattle.std.specs.Prelude.{◌≡◌};
ghost use Rattle.rules.specs.Refusals.{number_of};

use std::error::Error;
use std::fmt;

// The causes, in the order of their numbers, 1 to 12.
#[derive(Clone, Copy, Debug, PartialEq, Eq)]
pub enum Refusal {
    NotABook,
    BadFile,
    BadParty,
    BadDay,
    BadType,
    BadCounterparty,
    BadAmount,
    DayClosed,
    NoRoom,
    NoEntry,
    BadLength,
    BadFigure,
}

// The number by which C and the programs tell a cause.
impl From<Refusal> for u32 {
    ghost from_gives = { λ refusal number. number ≡ number_of refusal };

    fn from(refusal: Refusal) -> u32 {
        match refusal {
            Refusal::NotABook => 1,
            Refusal::BadFile => 2,
            Refusal::BadParty => 3,
            Refusal::BadDay => 4,
            Refusal::BadType => 5,
            Refusal::BadCounterparty => 6,
            Refusal::BadAmount => 7,
            Refusal::DayClosed => 8,
            Refusal::NoRoom => 9,
            Refusal::NoEntry => 10,
            Refusal::BadLength => 11,
            Refusal::BadFigure => 12,
        }
    }
}

impl fmt::Display for Refusal {
    fn fmt<W: fmt::Write>(&self, f: &mut fmt::Formatter<W>) -> fmt::Result {
        f.write_str(match self {
            Refusal::NotABook => "the words are no book",
            Refusal::BadFile => "the bytes are no day file",
            Refusal::BadParty => "the party is outside its range",
            Refusal::BadDay => "the day is outside its range",
            Refusal::BadType => "the entry type is unknown",
            Refusal::BadCounterparty => "the counterparty does not fit the type",
            Refusal::BadAmount => "the amount is above its limit",
            Refusal::DayClosed => "the day is closed",
            Refusal::NoRoom => "no place is left",
            Refusal::NoEntry => "there is no such entry",
            Refusal::BadLength => "a length does not agree",
            Refusal::BadFigure => "a figure is outside its range",
        })
    }
}

impl Error for Refusal {}
