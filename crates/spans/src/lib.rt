// The span of a set.
#![tactic(auto)]

ghost use Rattle.std.specs.Prelude.{◌≡◌};
ghost use Rattle.model.specs.Sets.{view, span};

use model::Set;
use rules::jobs::members;

// The span: the largest arrival plus the sum of all HI budgets.
pub fn span_of(s: Set) -> u64
    ensures { result ≡ span (view s) }
{
    let jobs = members(&s);
    let latest = jobs.iter().map(|j| j.arrival).max().unwrap_or(0);
    let work: u32 = jobs.iter().map(|j| u32::from(j.hi)).sum();
    u64::from(latest) + u64::from(work)
}
