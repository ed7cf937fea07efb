// Refusals 2 to 7 of document 01, and the span.
#![tactic(auto)]

ghost use Rattle.std.specs.Prelude.{◌≡◌};
ghost use Rattle.model.specs.Sets.{view};
ghost use Rattle.model.specs.Refusals.{checked, refusal};

mod jobs;
mod orders;
mod refusals;

use model::{Refusal, Set};
use refusals::{check_count, check_jobs, check_orders};
pub use spans::span_of;

// Refuses the set by the first of checks 2 to 7 that applies to it, with its place, or lets it pass.
pub fn check(s: &Set) -> Result<(), Refusal>
    ensures { result ≡ checked (refusal (view s.now)) }
{
    check_count(s)?;
    check_jobs(s)?;
    check_orders(s)
}

// The first refusal by checks 2 to 7 that applies to the set, with its place; number 0 where none does.
pub fn refusal_of(s: Set) -> Refusal
    ensures { result ≡ refusal (view s) }
{
    Refusal::from(check(&s))
}
