// Internal: a flag for each party's number; 0 is no party. A caller meets each `requires`.
ghost use Rattle.std.specs.Prelude.{◌≡◌, ◌≤◌, Bool, List, set};
ghost use Rattle.rules.specs.Entry.{last_party};
ghost use Rattle.rules.specs.Control.{detected_parties};
ghost use Rattle.repeated_pairs.specs.Flags.{flagged, no_flags, all_flags};

use rules::bounds::NUMBERS;
use std::marker::Model;

// Clauses see the list of the flags.
#[derive(Clone, Copy)]
pub struct Flags {
    set: [bool; NUMBERS],
}

impl Model for Flags {
    ghost Value = { List Bool };

    ghost view = { λ f. f.set };

    ghost inverse = { λ flags. record { set = flags } };
}

impl Flags {
    pub fn none() -> Flags
        ensures { result ≡ no_flags }
    {
        Flags {
            set: [false; NUMBERS],
        }
    }

    pub fn all() -> Flags
        ensures { result ≡ all_flags }
    {
        Flags {
            set: [true; NUMBERS],
        }
    }

    pub fn has(&self, party: u32) -> bool
        requires { party ≤ last_party }
        ensures { result ≡ flagged self.now party }
    {
        self.set[party as usize]
    }

    pub fn put(&mut self, party: u32, flag: bool)
        requires { party ≤ last_party }
        ensures { self.new ≡ set self.old party flag }
    {
        self.set[party as usize] = flag;
    }

    // How many are set, without a branch.
    pub fn count(&self) -> u32
        ensures { result ≡ detected_parties (flagged self.now) }
    {
        let mut n = 0;
        for flag in &self.set {
            n += u32::from(*flag);
        }
        n
    }
}
