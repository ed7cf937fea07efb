// The tables of a set in lent room, and parts of them.
ghost use Rattle.std.specs.Prelude.{◌≤◌};

use answer_text::{Lines, Table, Words};
use model::Set;
use std::io;
use std::io::Write;

// The longest room that a question is given.
const ROOM: usize = 4200;

// Room for a table, with 7 in every entry.
fn room() -> [u16; ROOM] {
    [7; ROOM]
}

// How much of the room is lent, of what a question asks for.
fn lent(asked: u64) -> usize
    ensures { result ≤ 4200 }
{
    usize::try_from(asked).map_or(ROOM, |n| n.min(ROOM))
}

// Both tables in room of the lengths that a question gives.
pub fn write_tables<W: Write>(
    lines: &mut Lines<'_, W>,
    set: &Set,
    lo_room: u64,
    hi_room: u64,
) -> io::Result<()> {
    let mut lo = room();
    let mut hi = room();
    let lo = &mut lo[..lent(lo_room)];
    let hi = &mut hi[..lent(hi_room)];
    write!(lines.out, " {}", Words(analysis::make_tables(*set, lo, hi)))?;
    lines.line(format_args!(" LO table{}", Table(lo)))?;
    lines.line(format_args!(" HI table{}", Table(hi)))
}

// The part of the HI table that a question asks for, and the companion refusal.
pub fn write_part<W: Write>(out: &mut W, set: &Set, from: u64, hi_room: u64) -> io::Result<()> {
    let mut lo = room();
    let mut hi = room();
    let n = lent(hi_room);
    let from = usize::try_from(from).unwrap_or(usize::MAX);
    let table = &mut hi[..n];
    analysis::make_tables(*set, &mut lo[..n], table);
    let refusal = Words(analysis::part_refusal(table, from));
    let part = Table(analysis::part(table, from));
    write!(out, " {refusal} gives{part}")
}
