// Finish rows, worst finishes and margins of a set under test.
// The scenarios are gone through by number, here and in the search, as a row's place and the invariants have them. Tried for `worsts`: `filter_map` in
// the `for`; its items are scenarios without numbers, and the goals of the loop, which go by number, stayed open.
// An array is filled by the places of the jobs, as published.rt says.
ghost use Rattle.std.specs.Prelude.{◌≡◌};
ghost use Rattle.model.specs.Sets.{view};
ghost use Rattle.model.specs.Scenarios.{places, rows as rows_in, worst};
ghost use Rattle.verdicts.specs.Rows.{raised_in, margins_in};

use crate::published::Test;
use measures::{margin_of, worse};
use model::Level;
use rules::jobs::members;

impl Test {
    // The finishes of every scenario: row 0 is LO, and row j that of HI job j.
    pub fn rows(&self) -> [[u16; 64]; 65]
        ensures { result ≡ rows_in (view self.now.set) }
    {
        let mut rows = [[0u16; 64]; 65];
        for x in 0..=self.set.count {
            if let Some(scenario) = self.scenario(x) {
                let finishes = self.run(scenario).finishes;
                rows[x] = finishes;
            }
        }
        rows
    }

    // Raises the worst finishes by one more run: those of the HI jobs.
    pub fn raise(&self, worsts: &mut [u16; 64], finishes: &[u16; 64])
        ensures { worsts.new ≡ raised_in (view self.now.set) worsts.old finishes.now }
    {
        for (i, (job, &finish)) in members(&self.set).iter().zip(finishes).enumerate() {
            worsts[i] = worse(job.level == Level::Hi, worsts[i], finish);
        }
    }

    // Each job's worst finish: the run of scenario LO, raised by that of each HI scenario.
    pub fn worsts(&self) -> [u16; 64]
        ensures { result ≡ places (view self.now.set) (worst (view self.now.set)) }
    {
        let mut worsts = self.ends;
        for x in 1..=self.set.count {
            if let Some(scenario) = self.scenario(x) {
                self.raise(&mut worsts, &self.run(scenario).finishes);
            }
        }
        worsts
    }

    // Each job's margin.
    pub fn margins(&self) -> [i32; 64]
        ensures { result ≡ margins_in (view self.now.set) }
    {
        let worsts = self.worsts();
        let mut margins = [0i32; 64];
        for (i, (job, &worst)) in members(&self.set).iter().zip(&worsts).enumerate() {
            margins[i] = margin_of(job.deadline, worst);
        }
        margins
    }
}
