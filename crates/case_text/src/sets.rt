// The lines that build a set:
//   set NAME                  a new set, with no job and no order
//   job A D LEVEL LO HI       one job more; with a sixth number, that many
//   lo J ..   hi J ..         the LO order, the HI order
//   counts N LO HI            the three counts as given, over whatever the room holds
ghost use Rattle.std.specs.Prelude.{◌≡◌, true, false};
ghost use Rattle.model.specs.Texts.{no_set};
ghost use Rattle.case_text.specs.Lines.{begins_set, builds};

use crate::numbers::{first_shorts, nth, numbers_in, shorts};
use model::{Order, Set};
use readings::{job_of, no_set};

// Adds the jobs of a line to the set, while there is room. (A job is of five numbers: to read 64 takes twice the time.)
fn add_jobs(set: &mut Set, numbers: &[u64]) {
    let job = job_of(&first_shorts::<5>(numbers));
    for _ in 0..nth(numbers, 5).clamp(1, 64) {
        if let Some(place) = set.jobs.get_mut(set.count) {
            *place = job;
            set.count += 1;
        }
    }
}

// The order of a line.
fn order_of(numbers: &[u64]) -> Order {
    Order {
        entries: shorts(numbers),
        count: numbers.len(),
    }
}

// A number as a count, the largest where it is beyond.
fn count_of(n: u64) -> usize {
    usize::try_from(n).unwrap_or(usize::MAX)
}

// Gives the set the three counts of a line.
fn set_counts(set: &mut Set, numbers: &[u64]) {
    set.count = count_of(nth(numbers, 0));
    set.lo.count = count_of(nth(numbers, 1));
    set.hi.count = count_of(nth(numbers, 2));
}

// Changes the set as a line says. A line that builds nothing leaves it as it is.
pub fn build(set: &mut Set, line: &[u8])
    ensures new_set { begins_set line.now ≡ true → set.new ≡ no_set }
    ensures as_it_was { builds line.now ≡ false → set.new ≡ set.old }
{
    match line.first() {
        Some(b's') => *set = no_set(),
        Some(b'j') => add_jobs(set, numbers_in(line).as_slice()),
        Some(b'l') => set.lo = order_of(numbers_in(line).as_slice()),
        Some(b'h') => set.hi = order_of(numbers_in(line).as_slice()),
        Some(b'c') => set_counts(set, numbers_in(line).as_slice()),
        _ => {}
    }
}
