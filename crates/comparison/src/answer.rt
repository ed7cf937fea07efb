// The library's answer to a question, held against the one wanted. What is written of it stands in memory, and each answer takes the place of the one before.
use crate::lines::{split_line, split_wanted};
use crate::tally::{Kind, kind_of};
use case_text::text_in;
use model::Set;
use std::io;
use std::io::Write;

// A question of a case.
#[derive(Clone, Copy)]
pub struct Asked<'a> {
    // the text from the line that begins the case
    pub case: &'a [u8],
    pub question: &'a [u8],
    // the text behind the question
    pub behind: &'a [u8],
}

// Writes what is printed for the text of a line, each line feed as `|`.
fn write_printed<W: Write>(out: &mut W, line: &[u8]) -> io::Result<()> {
    let mut page = printing::answer(text_in(line).as_slice());
    for b in &mut page.bytes {
        if *b == b'\n' {
            *b = b'|';
        }
    }
    out.write_all(b" ")?;
    out.write_all(page.shown())
}

// Writes the library's answer to a question on the text of a line, or on a set. `print` asks for what the program prints for the text. (It is no case of
// `Question`: `questions` answers on a set alone, and `analysis_tests` takes each line that begins with `p` to ask for a part.)
fn write_words<W: Write>(out: &mut W, line: &[u8], question: &[u8], set: &Set) -> io::Result<()> {
    if question.starts_with(b"pr") {
        return write_printed(out, line);
    }
    questions::answer(out, b"=", question, set)
}

impl Asked<'_> {
    // Writes the library's answer as it should stand behind the question. What was written before is dropped, so that no earlier answer can be read for it.
    fn write_answer(&self, answer: &mut Vec<u8>, set: &Set) -> io::Result<()> {
        let line = split_line(self.case).map_or(self.case, |parts| parts.0);
        answer.clear();
        answer.write_all(b"=")?;
        write_words(answer, line, self.question, set)?;
        answer.write_all(b"\n")
    }

    // The kind under which the question is counted, which is looked for where the answer agrees. Prints the case if the question, its last one so far, is
    // answered otherwise, and the answer.
    pub fn compare<W: Write>(
        &self,
        out: &mut W,
        answer: &mut Vec<u8>,
        set: &Set,
    ) -> io::Result<Kind> {
        self.write_answer(answer, set)?;
        let (wanted, rest) = split_wanted(self.behind);
        let agrees = answer.as_slice() == wanted;
        match agrees.then(|| kind_of(self.question, wanted)).flatten() {
            Some(kind) => Ok(kind),
            None => {
                let shown = self.case.len().saturating_sub(rest.len());
                out.write_all(self.case.get(..shown).unwrap_or(self.case))?;
                out.write_all(b"The library answers:\n")?;
                out.write_all(answer)?;
                Ok(Kind::Difference)
            }
        }
    }
}
