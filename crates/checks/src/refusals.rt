// The checks of document 01, "Refusal numbers", in their order. Each refuses the set, with its number and place, or lets it pass.
ghost use Rattle.std.specs.Prelude.{◌≤◌, [], ◌∷◌, ◌≡◌};
ghost use Rattle.model.specs.Sets.{view};
ghost use Rattle.model.specs.Refusals.{checked, first_of, check_count, check_time, check_budget, check_span, check_lo_order, check_hi_order};

use crate::jobs::{hi_jobs, lowest};
use crate::orders::allowed;
use model::{Check, Level, Refusal, Set};
use rules::jobs::{unbudgeted, untimely};
use rules::orders::fault_of;
use spans::span_of;

// Check 2: the counts. (`as`: there is no `u64::from(usize)`.)
pub fn check_count(s: &Set) -> Result<(), Refusal>
    ensures { result ≡ checked (check_count (view s.now)) }
{
    let n = s.count;
    let wrong = n == 0 || 64 < n || s.lo.count != n || s.hi.count != hi_jobs(s);
    Check::Count.refuse(wrong.then_some(n as u64))
}

// Checks 3 to 5: the times, the budgets, the span.
pub fn check_jobs(s: &Set) -> Result<(), Refusal>
    ensures { result ≡ checked (first_of (check_time (view s.now) ∷ check_budget (view s.now) ∷ check_span (view s.now) ∷ [])) }
{
    Check::Time.refuse(lowest(s, untimely))?;
    Check::Budget.refuse(lowest(s, unbudgeted))?;
    let n = span_of(*s);
    Check::Span.refuse((4096 < n).then_some(n))
}

// Checks 6 and 7: the orders.
pub fn check_orders(s: &Set) -> Result<(), Refusal>
    requires { (s.now.count ≤ 64) × (s.now.lo.count ≤ 64) × (s.now.hi.count ≤ 64) }
    ensures { result ≡ checked (first_of (check_lo_order (view s.now) ∷ check_hi_order (view s.now) ∷ [])) }
{
    Check::LoOrder.refuse(fault_of(&allowed(s, Level::Lo), &s.lo))?;
    Check::HiOrder.refuse(fault_of(&allowed(s, Level::Hi), &s.hi))
}
