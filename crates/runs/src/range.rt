// Which running times a run may have.
ghost use Rattle.std.specs.Prelude.{◌≡◌};
ghost use Rattle.model.specs.Refusals.{checked, check_run};
ghost use Rattle.columns.specs.Columns.{view_of, Testable};

use crate::engine::Run;
use measures::in_range;
use model::{Check, Refusal};

impl Run<'_> {
    // Refuses, by 9, the lowest job whose running time lies outside its range. (`as`: there is no `u64::from(usize)`.)
    pub fn in_range(&self) -> Result<(), Refusal>
        requires { Testable self.now.k.now }
        ensures { result ≡ checked (check_run (view_of self.now.k.now) self.now.times.now) }
    {
        let k = self.k;
        // over the numbers: a job's level, budgets and time stand in four arrays
        for i in 0..k.n {
            if !in_range(k.critical[i], k.lo[i], k.hi[i], self.times[i]) {
                return Check::Run.refuse(Some(i as u64 + 1));
            }
        }
        Ok(())
    }
}
