// A set column by column: the engine is lent the columns that it looks at, and copies none.
#![tactic(auto)]

ghost use Rattle.std.specs.Prelude.{◌≡◌};
ghost use Rattle.columns.specs.Columns.{view_of, columns_of};

use model::{Level, Set};
use rules::jobs::members;
use rules::orders::places;

// Arrays side by side, and no array of jobs: `picks::pick` promises its answer by the list of the arrivals, which `arrivals` is, and `columns_of`, which is
// public, promises each of the others.
#[derive(Clone, Copy)]
pub struct Columns {
    pub n: usize,
    pub m: usize,
    pub arrivals: [u16; 64],
    pub deadlines: [u16; 64],
    pub critical: [bool; 64],
    pub lo: [u16; 64],
    pub hi: [u16; 64],
    pub lo_order: [u16; 64],
    pub hi_order: [u16; 64],
}

impl Columns {
    // The order of a mode, without the room beyond its count.
    #[tactic(auto, using(std::proofs::lemmas::List::take_min), unfolding(crate::specs::Columns::view_of, crate::specs::Columns::listed, crate::specs::Columns::by_mode))]
    pub fn order(&self, mode: Level) -> &[u16]
        ensures { result.now ≡ (view_of self.now).policy.order mode }
    {
        match mode {
            Level::Lo => &self.lo_order[..places(self.n)],
            Level::Hi => &self.hi_order[..places(self.m)],
        }
    }
}

// The columns of a set. Past its count, and past the 64 places, they hold nothing.
pub fn columns_of(s: Set) -> Columns
    ensures { result ≡ columns_of s }
{
    let mut k = Columns {
        n: s.count,
        m: s.hi.count,
        arrivals: [0u16; 64],
        deadlines: [0u16; 64],
        critical: [false; 64],
        lo: [0u16; 64],
        hi: [0u16; 64],
        lo_order: s.lo.entries,
        hi_order: s.hi.entries,
    };
    // by index: one pass fills five columns; a `zip` of five `iter_mut` is no plainer, and past it a proof has no name for a column
    for (i, job) in members(&s).iter().enumerate() {
        k.arrivals[i] = job.arrival;
        k.deadlines[i] = job.deadline;
        k.critical[i] = job.level == Level::Hi;
        k.lo[i] = job.lo;
        k.hi[i] = job.hi;
    }
    k
}
