// What the program prints for a text (document 01, "Plan text and program").
#![tactic(auto)]

ghost use Rattle.std.specs.Prelude.{◌≡◌};
ghost use Rattle.model.specs.declared.Reading.{Reading as ReadingOf};
ghost use Rattle.model.specs.Sets.{view};
ghost use Rattle.model.specs.Answers.{judged};
ghost use Rattle.model.specs.Texts.{Reads};
ghost use Rattle.model.specs.Printed.{judged_text, printed};
ghost use Rattle.pages.specs.Pages.{page};

mod lines;

use analysis::assess;
use lines::Passed;
use model::{Reading, Set, Verdict};
use pages::Page;
use plan_text::read;

// The answer to a set that was read: what refuses it, or its verdict.
fn judged_page(s: &Set) -> Page
    ensures { result ≡ page (judged_text (view s.now) (judged (view s.now)).judgement (judged (view s.now)).times) }
{
    let a = assess(*s);
    match a.judged.judgement {
        Err(refusal) => Page::refused(refusal),
        Ok(Verdict::Fit) => Passed { set: s }.fit(&a.worsts),
        Ok(Verdict::Unfit(miss)) => Passed { set: s }.unfit(miss, &a.judged.times),
    }
}

// The answer to what was read of a text.
fn page_of(q: &Reading) -> Page
    ensures { result ≡ page (printed q.now) }
{
    match q.refusal.check() {
        Ok(()) => judged_page(&q.set),
        Err(refusal) => Page::refused(refusal),
    }
}

// What the program prints for a text.
pub fn answer(text: &[u8]) -> Page
    ensures { (q : ReadingOf) × Reads text.now q × (result ≡ page (printed q)) }
{
    page_of(&read(text))
}
