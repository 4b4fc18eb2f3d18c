// The answers of calls in the structs that C has, out of results.
ghost use Rattle.std.specs.Prelude.{◌≡◌};
ghost use Rattle.rules.specs.Refusals.{answer_of};
ghost use Rattle.rules.specs.Answers.{posted_of, counted_of, entry_read_of, balance_answer_of, tally_answer_of, month_answer_of, ceiling_answer_of, first_day_answer_of, controlled_of, file_read_of, collateral_answer_of};

use crate::{
    BalanceAnswer, CeilingAnswer, Collateral, Controlled, Counted, Counts, Entry, EntryRead,
    FileRead, FirstDayAnswer, Items, MonthAnswer, PartyDay, Posted, Refusal, SUMS, Tally,
    TallyAnswer,
};
use case_figures::Month;

// The answer of a call with no other figure: 0, or the cause.
pub fn answer_of(done: Result<(), Refusal>) -> u32
    ensures { result ≡ answer_of done }
{
    match done {
        Ok(()) => 0,
        Err(refusal) => refusal.into(),
    }
}

impl From<Result<u32, Refusal>> for Posted {
    ghost from_gives = { λ done posted. posted ≡ posted_of done };

    fn from(done: Result<u32, Refusal>) -> Posted {
        match done {
            Ok(number) => Posted { answer: 0, number },
            Err(refusal) => Posted {
                answer: refusal.into(),
                number: 0,
            },
        }
    }
}

impl From<Result<u32, Refusal>> for Counted {
    ghost from_gives = { λ done counted. counted ≡ counted_of done };

    fn from(done: Result<u32, Refusal>) -> Counted {
        match done {
            Ok(count) => Counted { answer: 0, count },
            Err(refusal) => Counted {
                answer: refusal.into(),
                count: 0,
            },
        }
    }
}

impl From<Result<Entry, Refusal>> for EntryRead {
    ghost from_gives = { λ done read. read ≡ entry_read_of done };

    fn from(done: Result<Entry, Refusal>) -> EntryRead {
        match done {
            Ok(entry) => EntryRead {
                answer: 0,
                party: entry.key.party,
                day: entry.key.day,
                entry_type: entry.key.entry_type,
                counterparty: entry.key.counterparty,
                status: entry.status,
                amount: entry.amount,
            },
            Err(refusal) => EntryRead {
                answer: refusal.into(),
                party: 0,
                day: 0,
                entry_type: 0,
                counterparty: 0,
                status: 0,
                amount: 0,
            },
        }
    }
}

impl From<Result<i64, Refusal>> for BalanceAnswer {
    ghost from_gives = { λ done balance. balance ≡ balance_answer_of done };

    fn from(done: Result<i64, Refusal>) -> BalanceAnswer {
        match done {
            Ok(balance) => BalanceAnswer { answer: 0, balance },
            Err(refusal) => BalanceAnswer {
                answer: refusal.into(),
                balance: 0,
            },
        }
    }
}

impl From<Result<PartyDay, Refusal>> for TallyAnswer {
    ghost from_gives = { λ done tally. tally ≡ tally_answer_of done };

    fn from(done: Result<PartyDay, Refusal>) -> TallyAnswer {
        match done {
            Ok(PartyDay { tally, bought }) => TallyAnswer {
                answer: 0,
                tally,
                bought,
            },
            Err(refusal) => TallyAnswer {
                answer: refusal.into(),
                tally: Tally {
                    party: 0,
                    sums: [0; SUMS],
                },
                bought: 0,
            },
        }
    }
}

impl From<Result<Month, Refusal>> for MonthAnswer {
    ghost from_gives = { λ done month. month ≡ month_answer_of done };

    fn from(done: Result<Month, Refusal>) -> MonthAnswer {
        match done {
            Ok(month) => MonthAnswer { answer: 0, month },
            Err(refusal) => MonthAnswer {
                answer: refusal.into(),
                month: Month { aosmf: 0, aedm: 0 },
            },
        }
    }
}

impl From<Result<bool, Refusal>> for CeilingAnswer {
    ghost from_gives = { λ done ceiling. ceiling ≡ ceiling_answer_of done };

    fn from(done: Result<bool, Refusal>) -> CeilingAnswer {
        match done {
            Ok(recordable) => CeilingAnswer {
                answer: 0,
                recordable: recordable.into(),
            },
            Err(refusal) => CeilingAnswer {
                answer: refusal.into(),
                recordable: 0,
            },
        }
    }
}

impl From<Result<u32, Refusal>> for FirstDayAnswer {
    ghost from_gives = { λ done first. first ≡ first_day_answer_of done };

    fn from(done: Result<u32, Refusal>) -> FirstDayAnswer {
        match done {
            Ok(day) => FirstDayAnswer { answer: 0, day },
            Err(refusal) => FirstDayAnswer {
                answer: refusal.into(),
                day: 0,
            },
        }
    }
}

impl From<Result<Counts, Refusal>> for Controlled {
    ghost from_gives = { λ done controlled. controlled ≡ controlled_of done };

    fn from(done: Result<Counts, Refusal>) -> Controlled {
        match done {
            Ok(counts) => Controlled {
                answer: 0,
                first: counts.first,
                second: counts.second,
                cancelled: counts.cancelled,
            },
            Err(refusal) => Controlled {
                answer: refusal.into(),
                first: 0,
                second: 0,
                cancelled: 0,
            },
        }
    }
}

impl From<Result<u32, Refusal>> for FileRead {
    ghost from_gives = { λ done read. read ≡ file_read_of done };

    fn from(done: Result<u32, Refusal>) -> FileRead {
        match done {
            Ok(posted) => FileRead { answer: 0, posted },
            Err(refusal) => FileRead {
                answer: refusal.into(),
                posted: 0,
            },
        }
    }
}

impl From<Result<Items, Refusal>> for Collateral {
    ghost from_gives = { λ done collateral. collateral ≡ collateral_answer_of done };

    fn from(done: Result<Items, Refusal>) -> Collateral {
        match done {
            Ok(items) => Collateral {
                answer: 0,
                margin: items.margin,
                trading: items.trading,
                imbalance: items.imbalance,
                risk: items.risk,
                yek: items.yek,
                total: items.total,
            },
            Err(refusal) => Collateral {
                answer: refusal.into(),
                margin: 0,
                trading: 0,
                imbalance: 0,
                risk: 0,
                yek: 0,
                total: 0,
            },
        }
    }
}
