// The reader of the plan text (document 01, "Plan text and program").
#![tactic(auto)]

ghost use Rattle.std.specs.Prelude.{◌≡◌};
ghost use Rattle.model.specs.Texts.{ones, Reads};
ghost use Rattle.plan_text.specs.Parts.{PlanRead};

mod reader;

use fields::Stuck;
use model::{Job, Reading, Refusal, Set};
use reader::Reader;
use readings::{level_number, no_job, refused};

// How many of the jobs are HI jobs. (`checks` counts those of a set: this crate stands on no checks, and each is one chain.)
#[tactic(auto, using(crate::proofs::Jobs::ones_sum))]
fn hi_jobs(jobs: &[Job]) -> usize
    ensures { result ≡ ones jobs.now }
{
    jobs.iter().map(|job| level_number(job.level)).sum()
}

// The set that the whole text says.
fn plan(text: &[u8]) -> Result<Set, Stuck>
    ensures { PlanRead text.now result }
{
    let mut reader = Reader { text, at: 0 };
    let count = usize::from(reader.number(1, 64, b'\n')?);
    let mut jobs = [no_job(); 64];
    reader.jobs(&mut jobs[..count])?;
    let lo = reader.order(count)?;
    let hi = reader.order(hi_jobs(&jobs[..count]))?;
    reader.end()?;
    Ok(Set {
        jobs,
        count,
        lo,
        hi,
    })
}

// The set of the text; or, where the text is not of the form, refusal 1 with the length of the longest prefix that some well-formed text also begins with.
pub fn read(text: &[u8]) -> Reading
    ensures { Reads text.now result }
{
    match plan(text) {
        Ok(set) => Reading {
            refusal: Refusal::GOOD,
            set,
        },
        Err(stuck) => refused(stuck.at),
    }
}
