// The answers to a set that passes the checks, line by line.
ghost use Rattle.std.specs.Prelude.{◌≡◌, true};
ghost use Rattle.model.specs.Sets.{view};
ghost use Rattle.model.specs.Refusals.{is_good, refusal};
ghost use Rattle.model.specs.Answers.{worsts as worsts_of};
ghost use Rattle.model.specs.Texts.{line};
ghost use Rattle.model.specs.Printed.{fit_text, unfit_text};
ghost use Rattle.pages.specs.Pages.{page, put};

use checks::span_of;
use model::{Miss, Set};
use pages::Page;

// "One line of the N running times in job order."
fn with_times(page: Page, times: &[u16]) -> Page
    ensures { result ≡ put page (line times.now) }
{
    let Some((first, rest)) = times.split_first() else {
        return page.with_byte(b'\n');
    };
    let start = page.with_decimal(u64::from(*first));
    rest.iter()
        .fold(start, |page, &time| page.with_field(u64::from(time)))
        .with_byte(b'\n')
}

// A set that passes the checks.
#[derive(Clone, Copy)]
pub struct Passed<'a> {
    pub set: &'a Set,
    ghost passes: { is_good (refusal (view set.now)) ≡ true },
}

impl Passed<'_> {
    // "FIT and the span; then for each job its number, worst finish and margin." (`as`: there is no `u64::from(usize)`.)
    pub fn fit(&self, worsts: &[u16; 64]) -> Page
        requires { worsts.now ≡ worsts_of (view self.now.set.now) }
        ensures { result ≡ page (fit_text (view self.now.set.now)) }
    {
        let head = Page::empty()
            .with_bytes(b"FIT")
            .with_field(span_of(*self.set))
            .with_byte(b'\n');
        self.set.jobs[..self.set.count]
            .iter()
            .zip(worsts)
            .enumerate()
            .fold(head, |page, (i, (job, &worst))| {
                page.with_job(i as u64 + 1, worst, job.deadline)
            })
    }

    // "An unfit set gives `UNFIT scenario job finish` and one line of the N running times in job order."
    pub fn unfit(&self, m: Miss, times: &[u16; 64]) -> Page
        ensures { result ≡ page (unfit_text (view self.now.set.now) m times.now) }
    {
        with_times(Page::missed(m), &times[..self.set.count])
    }
}
