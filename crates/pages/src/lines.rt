// The lines of the answers: a refusal, a miss, one job.
ghost use Rattle.std.specs.Prelude.{◌≡◌};
ghost use Rattle.model.specs.Printed.{refused_text};
ghost use Rattle.pages.specs.Pages.{page, put};
ghost use Rattle.pages.specs.Lines.{job_line, miss_line};

use crate::Page;
use model::{Miss, Refusal};

impl Page {
    // "A refusal gives `REFUSED number place`."
    pub fn refused(r: Refusal) -> Page
        ensures { result ≡ page (refused_text r) }
    {
        let number = u64::from(r.number);
        Page::empty()
            .with_bytes(b"REFUSED")
            .with_field(number)
            .with_field(r.place)
            .with_byte(b'\n')
    }

    // "`UNFIT scenario job finish`"
    pub fn missed(m: Miss) -> Page
        ensures { result ≡ page (miss_line m) }
    {
        Page::empty()
            .with_bytes(b"UNFIT")
            .with_field(u64::from(u16::from(m.scenario)))
            .with_field(u64::from(m.job))
            .with_field(u64::from(m.finish))
            .with_byte(b'\n')
    }

    // The line of one job: "its number, worst finish and margin".
    pub fn with_job(self, job: u64, worst: u16, deadline: u16) -> Page
        ensures { result ≡ put self (job_line job worst deadline) }
    {
        let finish = u64::from(worst);
        self.with_decimal(job)
            .with_field(finish)
            .with_margin(u64::from(deadline), finish)
            .with_byte(b'\n')
    }
}
