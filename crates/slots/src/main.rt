// The program `slots`: what a picture of a run shows. It reads 64 running times and a plan text (input.rt) from standard input. Where all times are 0
// the run is the failing scenario of an unfit set, and scenario 0 of a fit one.
// It prints `REFUSED number place` where the text or the run is refused, and else four lines: `times` and `ends`, with a number for each job and 0 for
// the end of a dropped one; `switch` and its instant, or `never`; and `slots`, who gets each slot, 0 for idle.
#![tactic(auto)]

mod input;

use analysis::{execute, judge, slots};
use answer_text::{List, Switch};
use checks::span_of;
use columns::columns_of;
use input::{text_in, times_in};
use input_bytes::read_full;
use model::{Refusal, Set};
use pages::Page;
use plan_text::read;
use std::io;
use std::io::Write;

fn main(rt: HostRuntime) -> io::Result<()> {
    // room for the times and the longest text that is read
    let mut room = [0; 4224];
    let n = read_full(&mut rt.stdin(), &mut room)?;
    show(&mut io::writer(&rt), &room[..n])
}

// Whether any time is given.
fn is_given(times: &[u16; 64]) -> bool {
    times.iter().any(|time| *time != 0)
}

// The times of the run that is shown.
fn times_of(set: &Set, given: [u16; 64]) -> [u16; 64] {
    if is_given(&given) {
        return given;
    }
    let failing = judge(*set).times;
    if is_given(&failing) {
        return failing;
    }
    columns_of(*set).lo
}

// The first n numbers of a list, or all of it where it has fewer.
fn first_of(values: &[u16], n: usize) -> List<'_, u16> {
    List(values.get(..n).unwrap_or(values))
}

// The line of a refusal.
fn show_refusal<W: Write>(out: &mut W, refusal: Refusal) -> io::Result<()> {
    out.write_all(Page::refused(refusal).shown())
}

// The lines of a run that is not refused, with its slots. (The span is cast: it is a place in the table, of 4,096 at most.)
fn show_run<W: Write>(out: &mut W, set: &Set, times: &[u16; 64], table: &[u16]) -> io::Result<()> {
    let ran = execute(*set, *times);
    writeln!(out, "times{}", first_of(times, set.count))?;
    writeln!(out, "ends{}", first_of(&ran.finishes, set.count))?;
    writeln!(out, "switch {}", Switch(ran.switch))?;
    writeln!(out, "slots{}", first_of(table, span_of(*set) as usize))
}

// The answer for a set, with the times given.
fn show_set<W: Write>(out: &mut W, set: &Set, given: [u16; 64]) -> io::Result<()> {
    let times = times_of(set, given);
    let mut table = [0; 4096];
    match slots(*set, times, &mut table).check() {
        Ok(()) => show_run(out, set, &times, &table),
        Err(refusal) => show_refusal(out, refusal),
    }
}

// The answer for an input.
fn show<W: Write>(out: &mut W, input: &[u8]) -> io::Result<()> {
    let reading = read(text_in(input));
    match reading.refusal.check() {
        Ok(()) => show_set(out, &reading.set, times_in(input)),
        Err(refusal) => show_refusal(out, refusal),
    }
}
