// The questions:
//   checks                    the refusal by checks 2 to 7
//   span                      the span
//   judge                     the judgement, and the running times beside it
//   finishes                  the companion refusal, and the finish rows 0 to N, a line each
//   worst finishes            each job's worst finish
//   margins                   each job's margin
//   run T ..                  of the run with these times the refusal, the finishes and the switch
//   tables in M and N         of both tables, made in lent room of M and N entries that held 7, the refusal and all of the room, a line each
//   part from T of N          of the HI table, made in room of N entries that held 7, the part from instant T, and the companion refusal
//   at T done F ..            who gets slot T by the LO order, where F is 1 for a job that is done
ghost use Rattle.std.specs.Prelude.{◌≡◌, None, Some, false};

use arrayvec::ArrayVec;
use case_text::{nth, numbers_in, short, shorts};

// A question, with its numbers.
#[derive(Drop)]
pub enum Question {
    Checks,
    Span,
    Judge,
    Finishes,
    WorstFinishes,
    Margins,
    Run { times: [u16; 64] },
    Tables { lo_room: u64, hi_room: u64 },
    Part { from: u64, room: u64 },
    Pick { slot: u16, done: ArrayVec<bool, 72> },
}

impl Question {
    ghost use Rattle.case_text.specs.Lines.{first};
    ghost use Rattle.questions.specs.Questions.{asks};
    ghost use Rattle.questions.specs.declared.question.Question.TheVariants.{Checks, Span};

    // The question that a line asks: its first letter says which. (The numbers are read where the question has any: a line may be long.)
    pub fn parse(line: &[u8]) -> Option<Question>
        ensures none { asks line.now ≡ false → result ≡ None }
        ensures checks { first line.now ≡ 99 → result ≡ Some Checks }
        ensures span { first line.now ≡ 115 → result ≡ Some Span }
    {
        match line.first()? {
            b'c' => Some(Question::Checks),
            b's' => Some(Question::Span),
            b'j' => Some(Question::Judge),
            b'f' => Some(Question::Finishes),
            b'w' => Some(Question::WorstFinishes),
            b'm' => Some(Question::Margins),
            b'r' => Some(Question::Run {
                times: shorts(numbers_in(line).as_slice()),
            }),
            b't' => Some(Question::tables(numbers_in(line).as_slice())),
            b'p' => Some(Question::part(numbers_in(line).as_slice())),
            b'a' => Some(Question::pick(numbers_in(line).as_slice())),
            _ => None,
        }
    }

    fn tables(numbers: &[u64]) -> Question {
        Question::Tables {
            lo_room: nth(numbers, 0),
            hi_room: nth(numbers, 1),
        }
    }

    fn part(numbers: &[u64]) -> Question {
        Question::Part {
            from: nth(numbers, 0),
            room: nth(numbers, 1),
        }
    }

    fn pick(numbers: &[u64]) -> Question {
        Question::Pick {
            slot: short(nth(numbers, 0)),
            done: done_in(numbers),
        }
    }
}

// Who is done: a flag for each number but the first, which is the slot. Where not even that is given, nobody is.
fn done_in(numbers: &[u64]) -> ArrayVec<bool, 72> {
    let Some((_, flags)) = numbers.split_first() else {
        return ArrayVec::from([false; 72]);
    };
    let mut done = ArrayVec::new();
    for flag in flags {
        let _ = done.try_push(*flag != 0);
    }
    done
}
