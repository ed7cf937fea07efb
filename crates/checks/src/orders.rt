// Who may stand in an order.
ghost use Rattle.std.specs.Prelude.{ℕ, ◌≤◌, not, ◌||◌, ◌≡◌};
ghost use Rattle.model.specs.Sets.{is_hi, view};
ghost use Rattle.rules.specs.Rules.{may_stand, marked};

use model::{Level, Set};
use rules::jobs::{is_hi, members};

// A job of level l may stand in the order of mode m: any in LO, a HI job in HI.
fn may_stand(l: Level, m: Level) -> bool
    ensures { result ≡ (not (is_hi m) || is_hi l) }
{
    !is_hi(m) || is_hi(l)
}

// Marks of who may stand in the order of mode m; number j has place j - 1. (Tried: `zip` over `iter_mut`; it leaves no index that the invariant can cite.)
pub fn allowed(s: &Set, m: Level) -> [bool; 64]
    requires { s.now.count ≤ 64 }
    ensures { (j : ℕ) → marked result j ≡ may_stand (view s.now) m j }
{
    let mut ok = [false; 64];
    for (i, job) in members(s).iter().enumerate() {
        ok[i] = may_stand(job.level, m);
    }
    ok
}
