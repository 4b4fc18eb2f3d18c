// Internal: the checks of one entry by its figures, for the crates above it.
#![tactic(auto)]

ghost use Rattle.std.specs.Prelude.{◌≡◌, leb};
ghost use Rattle.rules.specs.Entry.{key_in, party_ok, day_ok, is_type, is_volume, is_money, is_bilateral, counterparty_ok, amount_limit, fault};
ghost use Rattle.rules.specs.Refusals.{answer_of};
ghost use Rattle.entry_checks.specs.Parts.{counterparty_limit};

use rules::bounds::{LAST_DAY, LAST_PARTY, MOST_MONEY, MOST_VOLUME};
use rules::layout::{BILATERAL, UPDATED_PROGRAM};
use rules::{Key, Refusal};

// Checks 3 to 7 of a post, one each (01, 'Entry types').
pub fn party_ok(party: u32) -> bool
    ensures { result ≡ party_ok party }
{
    (1 <= party) & (party <= LAST_PARTY)
}

pub fn day_ok(day: u32) -> bool
    ensures { result ≡ day_ok day }
{
    day <= LAST_DAY
}

pub fn is_money(entry_type: u32) -> bool
    ensures { result ≡ is_money entry_type }
{
    (17 <= entry_type) & (entry_type <= 20)
}

pub fn is_volume(entry_type: u32) -> bool
    ensures { result ≡ is_volume entry_type }
{
    ((1 <= entry_type) & (entry_type <= 16)) | (entry_type == UPDATED_PROGRAM)
}

pub fn is_type(entry_type: u32) -> bool
    ensures { result ≡ is_type entry_type }
{
    is_volume(entry_type) | is_money(entry_type)
}

// The largest counterparty of a type. It is chosen, and nothing branches on the type of a legal entry: see `entry_words`.
fn counterparty_limit(entry_type: u32) -> u32
    ensures { result ≡ counterparty_limit entry_type }
{
    if entry_type == BILATERAL {
        LAST_PARTY
    } else {
        0
    }
}

pub fn counterparty_ok(key: Key) -> bool
    ensures { result ≡ counterparty_ok (key_in key) }
{
    (key.counterparty <= counterparty_limit(key.entry_type))
        & !((key.counterparty == key.party) & (key.entry_type == BILATERAL))
}

pub fn amount_ok(entry_type: u32, amount: u64) -> bool
    ensures { result ≡ leb amount (amount_limit entry_type) }
{
    if is_money(entry_type) {
        amount <= MOST_MONEY
    } else {
        amount <= MOST_VOLUME
    }
}

// The lowest cause of 3 to 7 that holds.
pub fn check(key: Key, amount: u64) -> Result<(), Refusal>
    ensures { answer_of result ≡ fault (key_in key) amount }
{
    if !party_ok(key.party) {
        return Err(Refusal::BadParty);
    }
    if !day_ok(key.day) {
        return Err(Refusal::BadDay);
    }
    if !is_type(key.entry_type) {
        return Err(Refusal::BadType);
    }
    if !counterparty_ok(key) {
        return Err(Refusal::BadCounterparty);
    }
    if !amount_ok(key.entry_type, amount) {
        return Err(Refusal::BadAmount);
    }
    Ok(())
}

// A bilateral sale with a counterparty above 0.
pub fn is_bilateral(key: Key) -> bool
    ensures { result ≡ is_bilateral (key_in key) }
{
    (key.entry_type == BILATERAL) & (0 < key.counterparty)
}
