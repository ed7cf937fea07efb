// A set under the published test: one that passes the checks, with the finishes of scenario 0, from which the running times of every other scenario
// follow.
// The times are filled by the places of the jobs: past `iter_mut().zip(..)` a proof knows nothing of the values. Tried: `array::from_fn`; the proof
// didn't close, since no search found the result in the clause inferred of the closure.
ghost use Rattle.std.specs.Prelude.{◌≡◌, ◌≤◌, true};
ghost use Rattle.model.specs.declared.Scenario.TheVariants.{Lo as LoOf};
ghost use Rattle.model.specs.Sets.{view};
ghost use Rattle.model.specs.Scenarios.{row, lo_times};
ghost use Rattle.model.specs.Refusals.{is_good, refusal};

use checks::check;
use columns::columns_of;
use model::{Level, Ran, Refusal, Scenario, Set};
use rules::jobs::members;
use runs::execute;

// The running times of scenario 0: each job's LO budget.
fn lo_times(set: &Set) -> [u16; 64]
    ensures { result ≡ lo_times (view set.now) }
{
    columns_of(*set).lo
}

// `few` follows from `good`, and stands beside it for the sake of each index.
#[derive(Drop)]
pub struct Test {
    pub set: Set,
    pub ends: [u16; 64],
    ghost few: { set.count ≤ 64 },
    ghost good: { is_good (refusal (view set)) ≡ true },
    ghost ends_are: { ends ≡ row (view set) LoOf },
}

impl Test {
    ghost use Rattle.std.specs.Prelude.{◌<◌, ◌+◌, false, MatchResult};
    ghost use Rattle.model.specs.declared.Scenario.TheVariants.{Hi as HiOf};
    ghost use Rattle.model.specs.Scenarios.{times_of};
    ghost use Rattle.runs.specs.Engine.{run_of};
    ghost use Rattle.verdicts.specs.Tests.{scenario_at, IsScenario, time_in};

    // The test of a set, or the first refusal that applies to it.
    pub fn of(set: Set) -> Result<Test, Refusal>
        ensures { MatchResult result (λ t. t.set ≡ set) (λ r. (r ≡ refusal (view set)) × (is_good (refusal (view set)) ≡ false)) }
    {
        check(&set)?;
        let ends = execute(set, lo_times(&set)).finishes;
        Ok(Test { set, ends })
    }

    // The scenario numbered x: 0 is LO, and j is HI of job j, which is one of the set's where j is a HI job. (`as`: x is at most 64, so there is no
    // error to handle.)
    pub fn scenario(&self, x: usize) -> Option<Scenario>
        requires { x ≤ self.now.set.count }
        ensures { result ≡ scenario_at (view self.now.set) x }
    {
        if x == 0 {
            Some(Scenario::Lo)
        } else if members(&self.set)[x - 1].level == Level::Hi {
            Some(Scenario::Hi(x as u16))
        } else {
            None
        }
    }

    // The running times of a scenario of the set: in HI of job `own` a HI job that is that job, or ends after it in scenario 0, has its HI budget.
    pub fn times(&self, scenario: Scenario) -> [u16; 64]
        requires { IsScenario (view self.now.set) scenario }
        ensures { result ≡ times_of (view self.now.set) scenario }
    {
        let Scenario::Hi(own) = scenario else {
            return lo_times(&self.set);
        };
        let own = usize::from(own);
        let turn = self.ends[own - 1];
        let mut times = [0u16; 64];
        for (i, (job, &end)) in members(&self.set).iter().zip(&self.ends).enumerate() {
            let raised = job.level == Level::Hi && (i + 1 == own || turn < end);
            times[i] = if raised { job.hi } else { job.lo };
        }
        times
    }

    // The run of a scenario of the set: its times lie in their range, so it is not refused.
    pub fn run(&self, scenario: Scenario) -> Ran
        requires { IsScenario (view self.now.set) scenario }
        ensures { result ≡ run_of (view self.now.set) (times_of (view self.now.set) scenario) }
    {
        execute(self.set, self.times(scenario))
    }
}
