// Reading what an input holds into room that is lent.
#![tactic(auto)]

ghost use Rattle.std.specs.Io.KnownBytes.{Consumes, IsAtEnd};
ghost use Rattle.std.specs.Prelude.{OnErr, take, ◌<◌, ◌≤◌, ℕ, length, IfOk};

use std::io;
use std::io::Read;

// Reads until the room is full or the input ends, and gives how many bytes then stand at the start of the room: they are the next bytes
// of the input, which goes on behind them. Where a read fails, the bytes that the earlier ones took stand at the start of the room.
// It is promised of every reader by the bytes that the reader says it holds, its `remaining`; std's standard input says none of its bytes.
// When an error comes is not said.
pub fn read_full<R: Read>(input: &mut R, room: &mut [u8]) -> io::Result<usize>
    ensures within { IfOk result (λ n. n ≤ length room.new) }
    ensures bytes { IfOk result (λ n. Consumes (R.remaining input.old) (R.remaining input.new) (take n room.new)) }
    ensures end { IfOk result (λ n. n < length room.new → IsAtEnd (R.remaining input.new)) }
    ensures err { OnErr result ((n : ℕ) × (n ≤ length room.new) × Consumes (R.remaining input.old) (R.remaining input.new) (take n room.new)) }
{
    // Counted by hand, and no `for`: each turn goes on by as many bytes as its read gave, which no iterator knows beforehand.
    let mut done = 0;
    while done < room.len() {
        let n = input.read(&mut room[done..])?;
        if n == 0 {
            return Ok(done);
        }
        done += n;
    }
    Ok(done)
}
