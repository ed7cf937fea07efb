// The tests of one job that runs, scenarios and tables go by: its running time against its range, its slots against its budgets, its finish against
// its deadline and against other finishes. Each takes numbers, as its promise is stated: the runs have them in
// columns, the published test in jobs, and a struct of them would be built for one call.
#![tactic(auto)]

ghost use Rattle.std.specs.Prelude.{◌≡◌, cond, not, ◌&&◌, max, eqb, leb, pos, ◌-ℤ◌};
ghost use Rattle.measures.specs.Measures.{missed_by, enabled_by};

// Whether a time lies in its range: 1 to the LO budget for a LO job, 1 to the HI budget for a HI job.
pub fn in_range(critical: bool, lo: u16, hi: u16, time: u16) -> bool
    ensures { result ≡ (leb 1 time && leb time (cond critical hi lo)) }
{
    1 <= time && time <= if critical { hi } else { lo }
}

// Rule 1 of one job: whether it is a HI job that has had exactly its LO budget and is not done.
pub fn outruns(critical: bool, had: u16, lo: u16, done: bool) -> bool
    ensures { result ≡ (critical && (eqb had lo && not done)) }
{
    critical && had == lo && !done
}

// Whether a HI job is enabled that has had h slots in the HI table and l in the LO table, where its budgets are lo and hi, and the LO
// table runs it or not.
#[tactic(auto, unfolding(crate::specs::Measures::enabled_by))]
pub fn is_enabled(h: u16, l: u16, lo: u16, hi: u16, runs: bool) -> bool
    ensures { result ≡ enabled_by h l lo hi runs }
{
    h < hi && (l == lo || h < l || runs)
}

// Whether a finish misses a deadline that the run requires: a HI job's in every run, any job's in a run without a switch.
#[tactic(auto, unfolding(crate::specs::Measures::missed_by))]
pub fn misses(critical: bool, deadline: u16, finish: u16, switch: Option<u16>) -> bool
    ensures { result ≡ missed_by critical deadline finish switch }
{
    (critical || switch.is_none()) && deadline < finish
}

// A job's worst finish after one more run of a HI scenario: for a LO job it stays.
pub fn worse(critical: bool, worst: u16, finish: u16) -> u16
    ensures { result ≡ cond critical (max worst finish) worst }
{
    if critical { worst.max(finish) } else { worst }
}

// A deadline minus a worst finish.
pub fn margin_of(deadline: u16, worst: u16) -> i32
    ensures { result ≡ pos deadline -ℤ pos worst }
{
    i32::from(deadline) - i32::from(worst)
}
