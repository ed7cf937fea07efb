// Does the cases of data/cases.txt through the library, and holds each answer against the one that stands in the file, byte by byte.
// A line builds a set (crate case_text), or begins with `? ` and asks something of it (crate questions), or gives a text, of which `? print` asks what is printed for it; directly behind it stand the expected
// lines of the answer, each after a `=`. Any other line is a comment. Prints how many answers of each kind agree, and each case that differs.
#![tactic(auto)]

mod answer;
mod lines;
mod tally;

use answer::Asked;
use case_text::build;
use input_bytes::read_full;
use lines::split_line;
use readings::no_set;
use std::alloc::Global;
use std::fs::File;
use std::io;
use std::io::Write;
use tally::Tally;

// How many bytes there is room for. A file that fills it is not read whole.
const ROOM: usize = 1048576;

fn main(rt: HostRuntime) -> io::Result<()> {
    let mut room = [0; ROOM];
    let text = read_cases(&rt, &mut room)?;
    let mut out = io::writer(&rt);
    if text.len() == ROOM {
        return writeln!(out, "cases.txt is too long");
    }
    compare(&mut out, rt.alloc(), text)
}

// The file of cases, as far as there is room; nothing where it cannot be opened.
fn read_cases<'a>(rt: &HostRuntime, room: &'a mut [u8; ROOM]) -> io::Result<&'a [u8]> {
    match File::open(rt, "cases.txt") {
        Ok(mut file) => {
            let n = read_full(&mut file, room)?;
            Ok(&room[..n])
        }
        Err(e) => {
            eprintln!(rt; "cases.txt: {e}")?;
            Ok(&[])
        }
    }
}

// Goes through the lines: `rest` is the text from a line on. (No `for` over `split`: a question needs the text from a line on and behind one, and `split` gives lines alone.)
fn compare<W: Write>(out: &mut W, alloc: Global, text: &[u8]) -> io::Result<()> {
    let mut answer = Vec::new(alloc);
    let mut set = no_set();
    let mut tally = Tally::new();
    let mut case = text;
    let mut rest = text;
    while let Some((line, behind)) = split_line(rest) {
        if matches!(line.first(), Some(b's' | b't')) {
            case = rest;
        }
        build(&mut set, line);
        if line.first() == Some(&b'?') {
            let question = line.get(2..).unwrap_or(&[]);
            let asked = Asked {
                case,
                question,
                behind,
            };
            tally.add(asked.compare(out, &mut answer, &set)?);
        }
        rest = behind;
    }
    write!(out, "{tally}")
}
