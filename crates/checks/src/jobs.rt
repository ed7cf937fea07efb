// The jobs of a set, one after the other.
ghost use Rattle.std.specs.Prelude.{◌≡◌, Bool, length};
ghost use Rattle.model.specs.declared.Job.{Job};
ghost use Rattle.model.specs.Lists.{first};
ghost use Rattle.model.specs.Sets.{job_at, members, view};
ghost use Rattle.model.specs.Scenarios.{hi_jobs};
ghost use Rattle.rules.specs.Rules.{nonzero};

use model::{Job, Set};
use rules::jobs::{is_hi, members};

// The number of HI jobs. (`plan_text` counts those of a text that is being read: it stands on no checks, and each is one chain.)
pub fn hi_jobs(s: &Set) -> usize
    ensures { result ≡ length (hi_jobs (view s.now)) }
{
    members(s).iter().filter(|j| is_hi(j.level)).count()
}

// The number of the lowest job that breaks a rule. (`as`: there is no `u64::from(usize)`.)
pub fn lowest<F: Fn(Job) -> bool>(s: &Set, breaks: F) -> Option<u64>
    requires { F.IsAlwaysCallable breaks }
    ensures { (rule : Job → Bool) → ((j : Job) (b : Bool) → F.post breaks j b → b ≡ rule j)
        → result ≡ nonzero (first (λ j. rule (job_at s.now j)) (members (view s.now).policy)) }
{
    members(s)
        .iter()
        .position(|j| breaks(*j))
        .map(|i| i as u64 + 1)
}
