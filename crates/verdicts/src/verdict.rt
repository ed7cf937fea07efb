// The search for the first required miss, and beside it, for a fit set, the worst finishes: from one run of each scenario.
ghost use Rattle.std.specs.Prelude.{◌≡◌};
ghost use Rattle.model.specs.Sets.{view};
ghost use Rattle.model.specs.declared.Verdict.TheVariants.{Fit as FitOf};
ghost use Rattle.model.specs.Scenarios.{places, worst};
ghost use Rattle.verdicts.specs.Tests.{IsVerdict, found};

use crate::published::Test;
use measures::misses;
use model::{Assessed, Judged, Level, Miss, Verdict};
use rules::jobs::members;

impl Test {
    // The verdict, with the times and the worst finishes beside it. A miss leaves the loop over the jobs and the loop over the scenarios together; a
    // scenario without one raises the worst finishes, which begin as those of scenario 0. (`as`: the job is one of 64 at most.)
    pub fn search(&self) -> Assessed
        ensures { result ≡ found (view self.now.set) }
    {
        let mut worsts = self.ends;
        let verdict = 'search: {
            for x in 0..=self.set.count {
                if let Some(scenario) = self.scenario(x) {
                    let ran = self.run(scenario);
                    for (i, (job, &finish)) in members(&self.set)
                        .iter()
                        .zip(&ran.finishes)
                        .enumerate()
                    {
                        if misses(job.level == Level::Hi, job.deadline, finish, ran.switch) {
                            break 'search Verdict::Unfit(Miss {
                                scenario,
                                job: i as u16 + 1,
                                finish,
                            });
                        }
                    }
                    self.raise(&mut worsts, &ran.finishes);
                }
            }
            Verdict::Fit
        };
        self.answer(verdict, worsts)
    }

    // The answer with a verdict, which gives it a failing scenario's times, or else the worst finishes.
    fn answer(&self, verdict: Verdict, worsts: [u16; 64]) -> Assessed
        requires verdict_is { IsVerdict (view self.now.set) verdict }
        requires worsts_are { verdict ≡ FitOf → worsts ≡ places (view self.now.set) (worst (view self.now.set)) }
        ensures { result ≡ found (view self.now.set) }
    {
        let judgement = Ok(verdict);
        match verdict {
            Verdict::Fit => Assessed {
                judged: Judged {
                    judgement,
                    times: [0u16; 64],
                },
                worsts,
            },
            Verdict::Unfit(miss) => {
                let times = self.times(miss.scenario);
                Assessed {
                    judged: Judged { judgement, times },
                    worsts: [0u16; 64],
                }
            },
        }
    }
}
