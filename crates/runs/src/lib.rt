// One run: what it ends with, and who gets each of its slots; and check 8, of the room lent. Every public function is total, and a run refuses by checks
// 2 to 7 first.
#![tactic(auto)]

ghost use Rattle.std.specs.Prelude.{◌≡◌, true, length};
ghost use Rattle.model.specs.Sets.{view, span as span_of};
ghost use Rattle.model.specs.Refusals.{is_good, checked, check_room, refusal};
ghost use Rattle.model.specs.Answers.{ran, slots_refusal, slots_in};
ghost use Rattle.runs.specs.Ranges.{answer_of, not_run};

mod engine;
mod range;

use checks::{check, span_of};
use columns::columns_of;
use engine::{Progress, Run};
use model::{Check, Ran, Refusal, Set};

// The span of a set that passes the checks. (`as`: it is at most 4,096, so there is no error to handle.)
fn span_in(s: &Set) -> u16
    requires { is_good (refusal (view s.now)) ≡ true }
    ensures { result ≡ span_of (view s.now) }
{
    span_of(*s) as u16
}

// The answer of a run that is refused.
#[tactic(auto, unfolding(crate::specs::Ranges::not_run, model::specs::Scenarios::zeros))]
fn not_run(refusal: Refusal) -> Ran
    ensures { result ≡ not_run refusal }
{
    Ran {
        refusal,
        finishes: [0u16; 64],
        switch: None,
    }
}

// The execution of one given run, or its refusal: 9 after 2 to 7.
fn executed(s: &Set, times: &[u16; 64]) -> Result<Ran, Refusal>
    ensures { answer_of result ≡ ran (view s.now) times.now }
{
    check(s)?;
    let k = columns_of(*s);
    let run = Run { k: &k, times };
    run.in_range()?;
    let Progress {
        finishes,
        switch,
        ..
    } = run.to_span(span_in(s), &mut []);
    Ok(Ran {
        refusal: Refusal::GOOD,
        finishes,
        switch,
    })
}

// The execution of one given run: each job's finish, 0 for a dropped one, and the switch. Refusal 9 after 2 to 7.
#[tactic(auto, unfolding(crate::specs::Ranges::answer_of, crate::specs::Ranges::not_run))]
pub fn execute(s: Set, times: [u16; 64]) -> Ran
    ensures { result ≡ ran (view s) times }
{
    executed(&s, &times).unwrap_or_else(not_run)
}

// Refuses, by 8, tables of lengths `lo` and `hi` where one of them is shorter than the set's span. (`as`: there is no `u64::from(usize)`.)
#[tactic(auto, unfolding(model::specs::Refusals::check_room, model::specs::Refusals::refused, model::specs::Refusals::applies, model::specs::Refusals::checked, model::specs::Refusals::is_good, model::specs::Refusals::good))]
pub fn check_room(s: &Set, lo: usize, hi: usize) -> Result<(), Refusal>
    ensures { result ≡ checked (check_room (view s.now) lo hi) }
{
    let span = span_of(*s);
    Check::Room.refuse(((lo.min(hi) as u64) < span).then_some(span))
}

// Writes who gets each slot of one given run into the room lent, or refuses: 8 after 2 to 7, and then 9.
fn write_slots(s: &Set, times: &[u16; 64], table: &mut [u16]) -> Result<(), Refusal>
    ensures answer { result ≡ checked (slots_refusal (view s.now) times.now (length table.old)) }
    ensures written { table.new ≡ slots_in (view s.now) times.now table.old }
{
    check(s)?;
    check_room(s, table.len(), table.len())?;
    let k = columns_of(*s);
    let given = Run { k: &k, times };
    given.in_range()?;
    given.to_span(span_in(s), table);
    Ok(())
}

// Writes who gets each slot of one given run into the room lent: 0 for idle, else a job number, for the span's length. Refused, it writes nothing;
// entries past the span stay as they were.
pub fn slots(s: Set, times: [u16; 64], table: &mut [u16]) -> Refusal
    ensures answer { result ≡ slots_refusal (view s) times (length table.old) }
    ensures written { table.new ≡ slots_in (view s) times table.old }
{
    Refusal::from(write_slots(&s, &times, table))
}
