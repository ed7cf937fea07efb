// The reader of a text: it stands at a place of it, and each part that is read takes it on behind that part.
ghost use Rattle.std.specs.Prelude.{◌+◌, ◌≤◌, ◌<◌, ◌≡◌, [], length, IfOk};
ghost use Rattle.forms.specs.Forms.{count, row, jobs as job_lines, order as order_form, job_limits, job_of as job_said};
ghost use Rattle.forms.specs.Forms.Form.{field};
ghost use Rattle.plan_text.specs.Parts.{limit_at, limits, behind_at, order_with, Takes, Ends};

use fields::{Stuck, ending, expect};
use model::{Job, Order};
use readings::job_of;

// A text, and the place up to which it has been read.
#[derive(Drop)]
pub struct Reader<'a> {
    pub text: &'a [u8],
    pub at: usize,
}

// The largest number at place i of a line whose level stands at place `level`, if it has one.
#[tactic(auto, using(std::proofs::lemmas::Bool::Decides::nat_tests), unfolding(crate::specs::Parts::limit_at))]
fn limit_at(level: Option<usize>, i: usize) -> u16
    ensures { result ≡ limit_at level i }
{
    if level == Some(i) { 1 } else { u16::MAX }
}

// The byte behind the number at place i of a line of n numbers.
#[tactic(auto, using(std::proofs::lemmas::Bool::Decides::nat_tests), unfolding(crate::specs::Parts::behind_at, forms::specs::Forms::space, forms::specs::Forms::lf))]
fn behind_at(n: usize, i: usize) -> u8
    requires { i < n }
    ensures { result ≡ behind_at n i }
{
    if i + 1 < n { b' ' } else { b'\n' }
}

impl Reader<'_> {
    // A number from `least` to `most`, with the byte `behind` behind it.
    pub fn number(&mut self, least: u16, most: u16, behind: u8) -> Result<u16, Stuck>
        ensures read { Takes self.old (field least most behind) self.new (λ x. x) result }
        ensures within { IfOk result (λ x. x ≤ most) }
    {
        let got = fields::number(self.text, self.at, least, most, behind)?;
        self.at = got.at;
        Ok(got.value)
    }

    // The line of a count that is determined. (`as`: that n fits a byte is proved, so there is no error to handle.)
    fn count(&mut self, n: usize) -> Result<(), Stuck>
        requires { n ≤ 64 }
        ensures { Takes self.old (λ f. count n (f tt)) self.new (λ x. x) result }
    {
        let n = n as u8;
        let at = if n < 10 {
            self.at
        } else {
            expect(self.text, self.at, b'0' + n / 10)?
        };
        self.at = ending(self.text, at, b'0' + n % 10)?;
        Ok(())
    }

    // A line of as many numbers as there is room for; no line where there is none. (A common loop for this and `jobs` would take a closure that borrows
    // the reader: no shorter than the two.)
    fn line(&mut self, values: &mut [u16], level: Option<usize>) -> Result<(), Stuck>
        ensures { Takes self.old (row (limits level (length values.old)) []) self.new (λ _. values.new) result }
    {
        let n = values.len();
        for (i, value) in values.iter_mut().enumerate() {
            *value = self.number(0, limit_at(level, i), behind_at(n, i))?;
        }
        Ok(())
    }

    // The line of a job.
    fn job(&mut self) -> Result<Job, Stuck>
        ensures { Takes self.old (λ f. row job_limits [] (λ l. f (job_said l))) self.new (λ j. j) result }
    {
        let mut values = [0; 5];
        self.line(&mut values, Some(2))?;
        Ok(job_of(&values))
    }

    // The lines of as many jobs as there is room for.
    pub fn jobs(&mut self, jobs: &mut [Job]) -> Result<(), Stuck>
        ensures { Takes self.old (job_lines (length jobs.old) []) self.new (λ _. jobs.new) result }
    {
        for job in jobs.iter_mut() {
            *job = self.job()?;
        }
        Ok(())
    }

    // An order of n entries, after its count. (A match on the count, and no `?`: its first arm is where the wrong edit
    // `count_not_compared` goes on.)
    pub fn order(&mut self, n: usize) -> Result<Order, Stuck>
        requires { n ≤ 64 }
        ensures { Takes self.old (λ f. order_form n (λ l. f (order_with l))) self.new (λ o. o) result }
    {
        match self.count(n) {
            Err(stuck) => Err(stuck),
            Ok(()) => {
                let mut entries = [0; 64];
                self.line(&mut entries[..n], None)?;
                Ok(Order { entries, count: n })
            }
        }
    }

    // The end of the text.
    pub fn end(&self) -> Result<(), Stuck>
        ensures { Ends self.now result }
    {
        if self.at < self.text.len() {
            Err(Stuck { at: self.at })
        } else {
            Ok(())
        }
    }
}
