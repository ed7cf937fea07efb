// Runs the cases of standard input through the library, and prints its answers.
// A line builds a set (crate case_text), or begins with `? ` and asks something of it (crate questions). Any other line is a comment.
#![tactic(auto)]

use case_text::build;
use input_bytes::read_full;
use model::Set;
use readings::no_set;
use std::io;
use std::io::Write;

fn main(rt: HostRuntime) -> io::Result<()> {
    let mut room = [0; 65536];
    let n = read_full(&mut rt.stdin(), &mut room)?;
    play(&mut io::writer(&rt), &room[..n])
}

// Writes the answer to a line that asks: the set's name, the question, and what the library says.
fn answer<W: Write>(out: &mut W, name: &[u8], line: &[u8], set: &Set) -> io::Result<()> {
    let [b'?', asked @ ..] = line else {
        return Ok(());
    };
    let question = asked.get(1..).unwrap_or(&[]);
    out.write_all(name)?;
    out.write_all(asked)?;
    questions::answer(out, name, question, set)?;
    out.write_all(b"\n")
}

// Goes through the lines. What is asked is answered under the name of the set that was built last; before the first set, of the first line.
fn play<W: Write>(out: &mut W, text: &[u8]) -> io::Result<()> {
    let mut set = no_set();
    let mut name: &[u8] = &[];
    for (i, line) in text.split(|b| *b == b'\n').enumerate() {
        if i == 0 || line.first() == Some(&b's') {
            name = line.get(4..).unwrap_or(&[]);
        }
        build(&mut set, line);
        answer(out, name, line, &set)?;
    }
    Ok(())
}
