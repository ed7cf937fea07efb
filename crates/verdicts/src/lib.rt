// The published test of document 01: the verdict, finish rows, worst finishes and margins, from the runs of the scenarios.
// Every function is total, and refuses by checks 2 to 7 first.
#![tactic(auto)]

ghost use Rattle.std.specs.Prelude.{◌≡◌};
ghost use Rattle.model.specs.Sets.{view};
ghost use Rattle.model.specs.Refusals.{refusal};
ghost use Rattle.model.specs.Answers.{judged, assessed, finish_rows, worsts as worsts_of, margins as margins_of};

mod published;
mod rows;
mod verdict;

use checks::refusal_of;
use model::{Assessed, Judged, Refusal, Set};
use published::Test;

// The judgement of a set with its times, and beside it the worst finishes of a fit set: one run of each scenario gives both.
pub fn assess(s: Set) -> Assessed
    ensures { result ≡ assessed (view s) }
{
    match Test::of(s) {
        Ok(test) => test.search(),
        Err(refusal) => Assessed {
            judged: Judged {
                judgement: Err(refusal),
                times: [0u16; 64],
            },
            worsts: [0u16; 64],
        },
    }
}

// The judgement of a set, with the running times of the failing scenario beside it.
pub fn judge(s: Set) -> Judged
    ensures { result ≡ judged (view s) }
{
    assess(s).judged
}

// `finish_rows`, `worst_finishes` and `margins` share no function: tried, `map_or` with a method; its closure's inferred clause doesn't give the result.

// The finishes of all scenarios: row 0 is LO, and row j that of HI job j.
pub fn finish_rows(s: Set) -> [[u16; 64]; 65]
    ensures { result ≡ finish_rows (view s) }
{
    match Test::of(s) {
        Ok(test) => test.rows(),
        Err(_) => [[0u16; 64]; 65],
    }
}

// The refusal that comes with the finish rows, the worst finishes and the margins.
pub fn rows_refusal(s: Set) -> Refusal
    ensures { result ≡ refusal (view s) }
{
    refusal_of(s)
}

// Each job's worst finish.
pub fn worst_finishes(s: Set) -> [u16; 64]
    ensures { result ≡ worsts_of (view s) }
{
    match Test::of(s) {
        Ok(test) => test.worsts(),
        Err(_) => [0u16; 64],
    }
}

// Each job's margin: its deadline minus its worst finish.
pub fn margins(s: Set) -> [i32; 64]
    ensures { result ≡ margins_of (view s) }
{
    match Test::of(s) {
        Ok(test) => test.margins(),
        Err(_) => [0i32; 64],
    }
}
