// The part of a table from an instant to its end: a slice of the table that is lent, no copy, with the refusal beside it.
#![tactic(auto)]

ghost use Rattle.std.specs.Prelude.{◌≡◌};
ghost use Rattle.model.specs.Tables.{part as part_of};
ghost use Rattle.model.specs.Refusals.{check_instant};

use model::{Check, Refusal};

// An instant past the end gives the empty part.
#[tactic(auto, unfolding(model::specs::Tables::part))]
pub fn part(table: &[u16], t: usize) -> &[u16]
    ensures { result.now ≡ part_of table.now t }
{
    table.get(t..).unwrap_or(&[])
}

// Refusal 10 where the instant is past the table's end, and good otherwise. (`as`: there is no `u64::from(usize)`.)
#[tactic(auto, unfolding(model::specs::Refusals::check_instant, model::specs::Refusals::applies, model::specs::Refusals::refused, model::specs::Refusals::told))]
pub fn part_refusal(table: &[u16], t: usize) -> Refusal
    ensures { result ≡ check_instant table.now t }
{
    Refusal::from(Check::Instant.refuse((table.len() < t).then_some(t as u64)))
}
