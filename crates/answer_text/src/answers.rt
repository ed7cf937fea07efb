// The answers that have words.
ghost use Rattle.std.specs.Prelude.{Some};
ghost use Rattle.answer_text.specs.Words.{refusal_words, miss_words, verdict_words, judgement_words, switch_words, gets_words};

use model::{Miss, Refusal, Verdict};
use std::fmt;

// A refusal, a miss, a verdict or a judgement in words. (`pages` has lines of a refusal and of a miss, for the judge: this crate stands on `model` alone, and its refusals read otherwise.)
#[derive(Clone, Copy)]
pub struct Words<T>(pub T);

// The refusal's number and its place, or that there is none. Each value of the type has its words, also one that no function answers, as number 0 with another place.
impl fmt::Display for Words<Refusal> {
    ghost output = { λ w. Some (refusal_words w.0) };

    fn fmt<W: fmt::Write>(&self, f: &mut fmt::Formatter<W>) -> fmt::Result {
        match self.0 {
            Refusal {
                number: 0,
                place: 0,
            } => write!(f, "good"),
            Refusal { number, place } => write!(f, "refused {number} {place}"),
        }
    }
}

impl fmt::Display for Words<Miss> {
    ghost output = { λ w. Some (miss_words w.0) };

    fn fmt<W: fmt::Write>(&self, f: &mut fmt::Formatter<W>) -> fmt::Result {
        let Miss {
            scenario,
            job,
            finish,
        } = self.0;
        write!(f, "UNFIT {} {job} {finish}", u16::from(scenario))
    }
}

impl fmt::Display for Words<Verdict> {
    ghost output = { λ w. Some (verdict_words w.0) };

    fn fmt<W: fmt::Write>(&self, f: &mut fmt::Formatter<W>) -> fmt::Result {
        match self.0 {
            Verdict::Fit => write!(f, "FIT"),
            Verdict::Unfit(miss) => write!(f, "{}", Words(miss)),
        }
    }
}

// A judgement.
impl fmt::Display for Words<Result<Verdict, Refusal>> {
    ghost output = { λ w. Some (judgement_words w.0) };

    fn fmt<W: fmt::Write>(&self, f: &mut fmt::Formatter<W>) -> fmt::Result {
        match self.0 {
            Ok(verdict) => write!(f, "{}", Words(verdict)),
            Err(refusal) => write!(f, "{}", Words(refusal)),
        }
    }
}

// The instant of a switch, or never.
#[derive(Clone, Copy)]
pub struct Switch(pub Option<u16>);

impl fmt::Display for Switch {
    ghost output = { λ w. Some (switch_words w.0) };

    fn fmt<W: fmt::Write>(&self, f: &mut fmt::Formatter<W>) -> fmt::Result {
        match self.0 {
            None => write!(f, "never"),
            Some(instant) => write!(f, "{instant}"),
        }
    }
}

// Who gets a slot.
#[derive(Clone, Copy)]
pub struct Gets(pub Option<u16>);

impl fmt::Display for Gets {
    ghost output = { λ w. Some (gets_words w.0) };

    fn fmt<W: fmt::Write>(&self, f: &mut fmt::Formatter<W>) -> fmt::Result {
        match self.0 {
            None => write!(f, "idle"),
            Some(job) => write!(f, "{job}"),
        }
    }
}
