// The answers to the questions.
ghost use Rattle.std.specs.Prelude.{◌≡◌, ◌∷◌, Ok, OnOk, false, decimal};
ghost use Rattle.std.specs.Io.KnownBytes.{Appends};
ghost use Rattle.model.specs.Sets.{view, span};
ghost use Rattle.model.specs.Refusals.{refusal};
ghost use Rattle.answer_text.specs.Words.{refusal_words};
ghost use Rattle.case_text.specs.Lines.{first};
ghost use Rattle.questions.specs.Questions.{asks};

use crate::lent::{write_part, write_tables};
use crate::question::Question;
use answer_text::{Gets, Lines, Switch, Words, of_jobs};
use model::Set;
use std::io;
use std::io::Write;

// The number of jobs that an answer has places for: those of the set, and none where its count is beyond its room.
fn jobs_in(set: &Set) -> usize {
    set.jobs.get(..set.count).unwrap_or(&[]).len()
}

// The judgement, and the running times beside it.
fn write_judged<W: Write>(out: &mut W, set: &Set) -> io::Result<()> {
    let judged = analysis::judge(*set);
    let times = of_jobs(&judged.times, jobs_in(set));
    write!(out, " {} times{times}", Words(judged.judgement))
}

// The finish rows.
fn write_finishes<W: Write>(lines: &mut Lines<'_, W>, set: &Set) -> io::Result<()> {
    write!(lines.out, " {}", Words(analysis::rows_refusal(*set)))?;
    lines.rows(&analysis::finish_rows(*set), jobs_in(set))
}

// The run with these times.
fn write_run<W: Write>(out: &mut W, set: &Set, times: &[u16; 64]) -> io::Result<()> {
    let ran = analysis::execute(*set, *times);
    let finishes = of_jobs(&ran.finishes, jobs_in(set));
    let refusal = Words(ran.refusal);
    write!(
        out,
        " {refusal} ends{finishes} switch {}",
        Switch(ran.switch)
    )
}

// Who gets a slot. (The arrivals are mapped here: `columns_of` makes arrays of the other columns too, which the pick does not read.)
fn write_pick<W: Write>(out: &mut W, set: &Set, slot: u16, done: &[bool]) -> io::Result<()> {
    let arrivals = set.jobs.map(|job| job.arrival);
    let entries = &set.lo.entries;
    let pick = analysis::pick(
        entries.get(..set.lo.count).unwrap_or(entries),
        arrivals.get(..set.count).unwrap_or(&arrivals),
        done,
        slot,
    );
    write!(out, " gets {}", Gets(pick))
}

// Gives a writer the answer to a question, without the end of its last line. Each further line begins with the bytes of `begin`.
// A line that asks no question has no answer.
pub fn answer<W: Write>(out: &mut W, begin: &[u8], question: &[u8], set: &Set) -> io::Result<()>
    ensures none { asks question.now ≡ false → out.new ≡ out.old }
    ensures checks { first question.now ≡ 99 → OnOk result (Appends (W.contents out.old) (W.contents out.new) (32 ∷ refusal_words (refusal (view set.now)))) }
    ensures span { first question.now ≡ 115 → OnOk result (Appends (W.contents out.old) (W.contents out.new) (32 ∷ decimal (span (view set.now)))) }
{
    let Some(question) = Question::parse(question) else {
        return Ok(());
    };
    let mut lines = Lines { out, begin };
    match &question {
        Question::Checks => write!(lines.out, " {}", Words(checks::refusal_of(*set))),
        Question::Span => write!(lines.out, " {}", checks::span_of(*set)),
        Question::Judge => write_judged(lines.out, set),
        Question::Finishes => write_finishes(&mut lines, set),
        Question::WorstFinishes => {
            let finishes = analysis::worst_finishes(*set);
            write!(lines.out, "{}", of_jobs(&finishes, jobs_in(set)))
        }
        Question::Margins => {
            let margins = analysis::margins(*set);
            write!(lines.out, "{}", of_jobs(&margins, jobs_in(set)))
        }
        Question::Run { times } => write_run(lines.out, set, times),
        Question::Tables { lo_room, hi_room } => write_tables(&mut lines, set, *lo_room, *hi_room),
        Question::Part { from, room } => write_part(lines.out, set, *from, *room),
        Question::Pick { slot, done } => write_pick(lines.out, set, *slot, done),
    }
}
