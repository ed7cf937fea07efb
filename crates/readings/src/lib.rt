// What the reader's answer is made of: a job of the numbers of its line, no job, no set, and the answer with its refusal.
#![tactic(auto)]

ghost use Rattle.std.specs.Prelude.{◌≡◌, ◌≤◌, length};
ghost use Rattle.model.specs.Sets.{blank};
ghost use Rattle.model.specs.Texts.{level_number, no_set};
ghost use Rattle.forms.specs.Forms.{job_of};
ghost use Rattle.readings.specs.Readings.{answer, refused_at};

use model::{Check, Job, Level, Order, Reading, Refusal, Set};

// The number of a level. (`as`: the number of the variant.)
#[tactic(auto, unfolding(model::specs::Texts::level_number))]
pub fn level_number(l: Level) -> usize
    ensures { result ≡ level_number l }
{
    l as usize
}

// The job that a line says: `A D level LO HI`. A number that it lacks is 0.
#[tactic(auto, unfolding(forms::specs::Forms::job_of, forms::specs::Forms::level_of, model::specs::Sets::job))]
pub fn job_of(values: &[u16]) -> Job
    ensures { result ≡ job_of values.now }
{
    let value = |i: usize| values.get(i).copied().unwrap_or(0);
    Job {
        arrival: value(0),
        deadline: value(1),
        level: if value(2) == 0 { Level::Lo } else { Level::Hi },
        lo: value(3),
        hi: value(4),
    }
}

// What stands in the room of a job.
#[tactic(auto, unfolding(model::specs::Sets::blank, model::specs::Sets::job))]
pub fn no_job() -> Job
    ensures { result ≡ blank }
{
    Job {
        arrival: 0,
        deadline: 0,
        level: Level::Lo,
        lo: 0,
        hi: 0,
    }
}

// No set: all 0.
#[tactic(auto, unfolding(model::specs::Texts::no_set, model::specs::Sets::set))]
pub fn no_set() -> Set
    ensures { result ≡ no_set }
{
    let order = Order {
        entries: [0; 64],
        count: 0,
    };
    Set {
        jobs: [no_job(); 64],
        count: 0,
        lo: order,
        hi: order,
    }
}

// An answer: the refusal's number and place, and the set. (`as`: there is no u64::from(usize).)
#[tactic(auto, unfolding(crate::specs::Readings::answer))]
pub fn answer(number: u8, place: usize, set: Set) -> Reading
    ensures { result ≡ answer number place set }
{
    Reading {
        refusal: Refusal {
            number,
            place: place as u64,
        },
        set,
    }
}

// Refusal 1 with its place. (`as`: the number that stands beside the variant.)
#[tactic(auto, unfolding(crate::specs::Readings::refused_at))]
pub fn refused(place: usize) -> Reading
    ensures { result ≡ refused_at place }
{
    answer(Check::Text as u8, place, no_set())
}
