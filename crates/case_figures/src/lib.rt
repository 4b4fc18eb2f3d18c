// A collateral case, put together one figure at a time (01, 'Collateral'), and the month answers that it holds.
#![tactic(auto)]

ghost use Rattle.std.specs.Prelude.{◌≡◌};
ghost use Rattle.case_figures.specs.CaseFigures.{plain_case, with_party, with_day, with_licence, with_holiday, with_responsible, with_capacity, with_nonbusiness, with_defaults, with_months, with_used, with_rk, with_rt, with_yt, with_score, with_best};

// A month's average price (AOSMF) and imbalance volume (AEDM).
#[repr(C)]
#[derive(Clone, Copy)]
pub struct Month {
    pub aosmf: u64,
    pub aedm: i64,
}

// The party and the day g of a collateral case.
#[repr(C)]
#[derive(Clone, Copy)]
pub struct Asked {
    pub party: u32,
    pub day: u32,
}

// Licence: 0 supply, 1 transmission, 2 generation; installed capacity in kW.
#[repr(C)]
#[derive(Clone, Copy)]
pub struct Margin {
    pub licence: u32,
    pub capacity: u64,
}

// Non-business days h, whether g is before a holiday (1 or 0), default days t.
#[repr(C)]
#[derive(Clone, Copy)]
pub struct Trading {
    pub nonbusiness: u32,
    pub holiday: u32,
    pub defaults: u32,
}

// Whether the party is responsible for its balancing group (1 or 0); three month answers, latest first;
// how many of them are used (n); the risk coefficient RK in hundredths; the risk collateral RT.
#[repr(C)]
#[derive(Clone, Copy)]
pub struct Group {
    pub responsible: u32,
    pub months: [Month; 3],
    pub used: u32,
    pub rk: u32,
    pub rt: u64,
}

// YT; the credit score T, 0 without consent; the best credit score M.
#[repr(C)]
#[derive(Clone, Copy)]
pub struct Yek {
    pub yt: u64,
    pub score: u32,
    pub best: u32,
}

// A collateral case, by the items that its figures go into.
#[repr(C)]
#[derive(Clone, Copy)]
pub struct Case {
    pub asked: Asked,
    pub margin: Margin,
    pub trading: Trading,
    pub group: Group,
    pub yek: Yek,
}

impl Case {
    // A plain supplier's case: all figures 0, M 1, k 3, own group.
    pub fn supplier() -> Self
        ensures { result ≡ plain_case }
    {
        let none = Month { aosmf: 0, aedm: 0 };
        Case {
            asked: Asked { party: 0, day: 0 },
            margin: Margin {
                licence: 0,
                capacity: 0,
            },
            trading: Trading {
                nonbusiness: 0,
                holiday: 0,
                defaults: 0,
            },
            group: Group {
                responsible: 1,
                months: [none; 3],
                used: 0,
                rk: 0,
                rt: 0,
            },
            yek: Yek {
                yt: 0,
                score: 0,
                best: 1,
            },
        }
    }

    // A method for each figure: a caller names the one that it gives, as document 01 has a case put together.
    pub fn with_party(mut self, party: u32) -> Self
        ensures { result ≡ with_party self party }
    {
        self.asked.party = party;
        self
    }

    pub fn with_day(mut self, day: u32) -> Self
        ensures { result ≡ with_day self day }
    {
        self.asked.day = day;
        self
    }

    pub fn with_licence(mut self, licence: u32) -> Self
        ensures { result ≡ with_licence self licence }
    {
        self.margin.licence = licence;
        self
    }

    pub fn with_capacity(mut self, capacity: u64) -> Self
        ensures { result ≡ with_capacity self capacity }
    {
        self.margin.capacity = capacity;
        self
    }

    pub fn with_nonbusiness(mut self, nonbusiness: u32) -> Self
        ensures { result ≡ with_nonbusiness self nonbusiness }
    {
        self.trading.nonbusiness = nonbusiness;
        self
    }

    pub fn with_holiday(mut self, holiday: u32) -> Self
        ensures { result ≡ with_holiday self holiday }
    {
        self.trading.holiday = holiday;
        self
    }

    pub fn with_defaults(mut self, defaults: u32) -> Self
        ensures { result ≡ with_defaults self defaults }
    {
        self.trading.defaults = defaults;
        self
    }

    pub fn with_responsible(mut self, responsible: u32) -> Self
        ensures { result ≡ with_responsible self responsible }
    {
        self.group.responsible = responsible;
        self
    }

    pub fn with_months(mut self, months: [Month; 3]) -> Self
        ensures { result ≡ with_months self months }
    {
        let mut group = self.group;
        group.months = months;
        self.group = group;
        self
    }

    pub fn with_used(mut self, used: u32) -> Self
        ensures { result ≡ with_used self used }
    {
        self.group.used = used;
        self
    }

    pub fn with_rk(mut self, rk: u32) -> Self
        ensures { result ≡ with_rk self rk }
    {
        self.group.rk = rk;
        self
    }

    pub fn with_rt(mut self, rt: u64) -> Self
        ensures { result ≡ with_rt self rt }
    {
        self.group.rt = rt;
        self
    }

    pub fn with_yt(mut self, yt: u64) -> Self
        ensures { result ≡ with_yt self yt }
    {
        self.yek.yt = yt;
        self
    }

    pub fn with_score(mut self, score: u32) -> Self
        ensures { result ≡ with_score self score }
    {
        self.yek.score = score;
        self
    }

    pub fn with_best(mut self, best: u32) -> Self
        ensures { result ≡ with_best self best }
    {
        self.yek.best = best;
        self
    }
}
