// The types of document 01. What they mean is in specs/, file by file in the document's order.
#![tactic(auto)]

ghost use Rattle.std.specs.Prelude.{◌≡◌};
ghost use Rattle.model.specs.Refusals.{told, checked, refused, number_of};
ghost use Rattle.model.specs.Printed.{scenario_number};

pub mod places;

// A job's level of criticality. The mode of a run is one of the same two.
#[derive(Clone, Copy, PartialEq, Eq)]
pub enum Level {
    Lo,
    Hi,
}

// "A job has an arrival A and a deadline D, a level, a LO budget and a HI budget."
#[derive(Clone, Copy)]
pub struct Job {
    pub arrival: u16,
    pub deadline: u16,
    pub level: Level,
    pub lo: u16,
    pub hi: u16,
}

// Job numbers, highest priority first, with room for 64. Room beyond the count is no part of the order. (Room and a count, here and in a set: document 01
// names the form, and `room_is_no_part` is stated over it.)
#[derive(Clone, Copy)]
pub struct Order {
    pub entries: [u16; 64],
    pub count: usize,
}

// "A set has N jobs, numbered 1 to N, N from 1 to 64." Job j stands at place j - 1, and `count` is N as given.
#[derive(Clone, Copy)]
pub struct Set {
    pub jobs: [Job; 64],
    pub count: usize,
    pub lo: Order,
    pub hi: Order,
}

// The checks of document 01, "Refusal numbers", each with its number.
#[derive(Clone, Copy, PartialEq, Eq)]
pub enum Check {
    Text = 1,
    Count = 2,
    Time = 3,
    Budget = 4,
    Span = 5,
    LoOrder = 6,
    HiOrder = 7,
    Room = 8,
    Run = 9,
    Instant = 10,
}

// "Each answer is the number and one place value." Number 0 with place 0 is good. (Document 01 names the form, and `refusal` and the theorems over it are
// stated by these numbers; code that may be refused answers a Result, and `told` is what From makes of it.)
#[derive(Clone, Copy)]
pub struct Refusal {
    pub number: u8,
    pub place: u64,
}

impl Check {
    // Refuses with a place, where there is one. (`as`: the number that stands beside the variant.)
    #[tactic(auto, unfolding(crate::specs::Refusals::refused, crate::specs::Refusals::number_of))]
    pub fn refuse(self, place: Option<u64>) -> Result<(), Refusal>
        ensures { result ≡ refused (number_of self) place }
    {
        match place {
            Some(place) => Err(Refusal {
                number: self as u8,
                place,
            }),
            None => Ok(()),
        }
    }
}

impl Refusal {
    // No refusal.
    pub const GOOD: Refusal = Refusal {
        number: 0,
        place: 0,
    };

    // What this answer says of a check: that it refuses, or, where it is good, that it lets pass.
    #[tactic(auto, unfolding(crate::specs::Refusals::checked, crate::specs::Refusals::is_good))]
    pub fn check(self) -> Result<(), Refusal>
        ensures { result ≡ checked self }
    {
        if self.number == 0 { Ok(()) } else { Err(self) }
    }
}

// What a check refuses, told as an answer: good where it refuses nothing.
impl From<Result<(), Refusal>> for Refusal {
    ghost from_gives = { λ r x. x ≡ told r };

    fn from(r: Result<(), Refusal>) -> Refusal {
        match r {
            Ok(()) => Refusal::GOOD,
            Err(refusal) => refusal,
        }
    }
}

// What the reader answers for a text: its set, all 0 where it is refused. (The refusal stands beside the set, as beside a run's finishes below, since
// document 01 says that what is refused comes back all 0; `Reads` and `ran` are stated over that.)
#[derive(Clone, Copy)]
pub struct Reading {
    pub refusal: Refusal,
    pub set: Set,
}

// A run between two slots: the mode, and for each job the slots that it has had and whether it is done. (Two lists, and not one of pairs: `pick` is lent
// who is done, and the definitions step both as they stand.)
#[derive(Clone, Copy)]
pub struct State {
    pub mode: Level,
    pub had: [u16; 64],
    pub done: [bool; 64],
}

// The answer of one given run: each job's finish, 0 for a dropped one, and the instant of the switch, if there is one.
#[derive(Clone, Copy)]
pub struct Ran {
    pub refusal: Refusal,
    pub finishes: [u16; 64],
    pub switch: Option<u16>,
}

// A scenario of the published test: LO, or HI of a job. (Document 01 names this enum, and the verdict's below.)
#[derive(Clone, Copy)]
pub enum Scenario {
    Lo,
    Hi(u16),
}

// The number by which a scenario is told: 0 for LO, else its job.
impl From<Scenario> for u16 {
    ghost from_gives = { λ x n. n ≡ scenario_number x };

    fn from(x: Scenario) -> u16 {
        match x {
            Scenario::Lo => 0,
            Scenario::Hi(job) => job,
        }
    }
}

// A required deadline that a scenario misses.
#[derive(Clone, Copy)]
pub struct Miss {
    pub scenario: Scenario,
    pub job: u16,
    pub finish: u16,
}

#[derive(Clone, Copy)]
pub enum Verdict {
    Fit,
    Unfit(Miss),
}

// A judgement, which is the verdict found or the refusal, and beside it the running times of the failing scenario, all 0 where there is none. (Document 01
// names the form, here and below.)
#[derive(Clone, Copy)]
pub struct Judged {
    pub judgement: Result<Verdict, Refusal>,
    pub times: [u16; 64],
}

// A judgement with its times, and beside it the worst finishes of a fit set, all 0 for an unfit or a refused one.
#[derive(Clone, Copy)]
pub struct Assessed {
    pub judged: Judged,
    pub worsts: [u16; 64],
}
