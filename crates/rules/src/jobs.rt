// The rules of one job, and the jobs of a set that they are asked of.
ghost use Rattle.std.specs.Prelude.{◌≡◌, length, min, take};
ghost use Rattle.model.specs.Sets.{is_hi};
ghost use Rattle.rules.specs.Rules.{untimely, unbudgeted};

use crate::orders::places;
use model::{Job, Level, Set};

// The level is HI.
#[tactic(auto, unfolding(model::specs::Sets::is_hi))]
pub fn is_hi(l: Level) -> bool
    ensures { result ≡ is_hi l }
{
    l == Level::Hi
}

// The deadline is not after the arrival.
#[tactic(auto, unfolding(crate::specs::Rules::untimely))]
pub fn untimely(j: Job) -> bool
    ensures { result ≡ untimely j }
{
    j.deadline <= j.arrival
}

// The budgets break their rule.
#[tactic(auto, unfolding(crate::specs::Rules::unbudgeted))]
pub fn unbudgeted(j: Job) -> bool
    ensures { result ≡ unbudgeted j }
{
    let uneven = if is_hi(j.level) {
        j.hi <= j.lo
    } else {
        j.lo != j.hi
    };
    j.lo < 1 || uneven
}

// The jobs of a set, job 1 first: those that have a place.
pub fn members(s: &Set) -> &[Job]
    ensures jobs { result.now ≡ take (min s.now.count 64) s.now.jobs }
    ensures count { length result.now ≡ min s.now.count 64 }
{
    &s.jobs[..places(s.count)]
}
