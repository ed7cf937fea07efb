// How many answers there are of each kind: by the verdict, else by the number of the refusal, else by the question.
use case_text::{nth, numbers_in};
use questions::Question;
use std::fmt;

// What an answer is counted as: the kind on which it agrees, or a difference.
#[derive(Clone, Copy, PartialEq, Eq)]
pub enum Kind {
    Fit,
    UnfitInLo,
    UnfitInHi,
    Refused(u64),
    Rows,
    Runs,
    Tables,
    Parts,
    WorstFinishes,
    Margins,
    Spans,
    Picks,
    Checks,
    Difference,
}

impl fmt::Display for Kind {
    fn fmt<W: fmt::Write>(&self, f: &mut fmt::Formatter<W>) -> fmt::Result {
        match self {
            Kind::Fit => write!(f, "fit"),
            Kind::UnfitInLo => write!(f, "unfit in LO"),
            Kind::UnfitInHi => write!(f, "unfit in HI"),
            Kind::Refused(number) => write!(f, "refused {number}"),
            Kind::Rows => write!(f, "rows"),
            Kind::Runs => write!(f, "runs"),
            Kind::Tables => write!(f, "tables"),
            Kind::Parts => write!(f, "parts"),
            Kind::WorstFinishes => write!(f, "worst finishes"),
            Kind::Margins => write!(f, "margins"),
            Kind::Spans => write!(f, "spans"),
            Kind::Picks => write!(f, "picks"),
            Kind::Checks => write!(f, "checks"),
            Kind::Difference => write!(f, "differences"),
        }
    }
}

// The last number of a refusal; the first is 1.
const LAST_REFUSAL: u64 = 10;

// Every kind, in the order in which they are printed.
const KINDS: [Kind; 23] = [
    Kind::Fit,
    Kind::UnfitInLo,
    Kind::UnfitInHi,
    Kind::Refused(1),
    Kind::Refused(2),
    Kind::Refused(3),
    Kind::Refused(4),
    Kind::Refused(5),
    Kind::Refused(6),
    Kind::Refused(7),
    Kind::Refused(8),
    Kind::Refused(9),
    Kind::Refused(LAST_REFUSAL),
    Kind::Rows,
    Kind::Runs,
    Kind::Tables,
    Kind::Parts,
    Kind::WorstFinishes,
    Kind::Margins,
    Kind::Spans,
    Kind::Picks,
    Kind::Checks,
    Kind::Difference,
];

// The kind of an answer that is no verdict and no refusal. No other question should be agreed on.
fn kind_of_question(question: &[u8]) -> Option<Kind> {
    match Question::parse(question)? {
        Question::Finishes => Some(Kind::Rows),
        Question::Run { .. } => Some(Kind::Runs),
        Question::Tables { .. } => Some(Kind::Tables),
        Question::Part { .. } => Some(Kind::Parts),
        Question::WorstFinishes => Some(Kind::WorstFinishes),
        Question::Margins => Some(Kind::Margins),
        Question::Span => Some(Kind::Spans),
        Question::Pick { .. } => Some(Kind::Picks),
        Question::Checks => Some(Kind::Checks),
        Question::Judge => None,
    }
}

// The kind of an answer that is agreed on, if such an answer to the question has one: in each line of an answer the words stand behind two bytes.
pub fn kind_of(question: &[u8], answer: &[u8]) -> Option<Kind> {
    let line = answer.split(|b| *b == b'\n').next().unwrap_or(&[]);
    let number = nth(numbers_in(line).as_slice(), 0);
    match answer.get(2) {
        Some(b'F') => Some(Kind::Fit),
        Some(b'U') if number == 0 => Some(Kind::UnfitInLo),
        Some(b'U') => Some(Kind::UnfitInHi),
        Some(b'R' | b'r') => (1..=LAST_REFUSAL)
            .contains(&number)
            .then_some(Kind::Refused(number)),
        _ => kind_of_question(question),
    }
}

// How many there are of each kind, in the order of `KINDS`. (An array, and no map: nothing that is counted may run out of memory.)
#[derive(Clone, Copy)]
pub struct Tally {
    counts: [u64; 23],
}

impl Tally {
    // Nothing counted.
    pub fn new() -> Tally {
        Tally { counts: [0; 23] }
    }

    // One more of a kind.
    pub fn add(&mut self, kind: Kind) {
        for (count, counted) in self.counts.iter_mut().zip(&KINDS) {
            if *counted == kind {
                *count = count.wrapping_add(1);
            }
        }
    }
}

// Each count after its name.
impl fmt::Display for Tally {
    fn fmt<W: fmt::Write>(&self, f: &mut fmt::Formatter<W>) -> fmt::Result {
        for (count, kind) in self.counts.iter().zip(KINDS) {
            writeln!(f, "{kind} {count}")?;
        }
        Ok(())
    }
}
