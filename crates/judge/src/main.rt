// The program `judge`: reads a plan text from standard input, and prints its answer.
#![tactic(auto)]

use input_bytes::read_full;
use std::io;

fn main(rt: HostRuntime) -> io::Result<()> {
    let mut room = [0u8; 4096];
    let n = read_full(&mut rt.stdin(), &mut room)?;
    rt.write_all(printing::answer(&room[..n]).shown())
}
