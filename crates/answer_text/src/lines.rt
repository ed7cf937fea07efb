// Lines that begin with bytes which need not be text.
ghost use Rattle.std.specs.Prelude.{◌≡◌, OnOk, IfSome, ◌∷◌, ◌++◌};
ghost use Rattle.std.specs.Io.KnownBytes.{Appends};

use crate::lists::of_jobs;
use std::fmt::Display;
use std::io;
use std::io::Write;

// Where the lines of an answer are written, and the bytes that each of them begins with.
#[derive(Drop)]
pub struct Lines<'a, W> {
    pub out: &'a mut W,
    pub begin: &'a [u8],
}

impl<W: Write> Lines<'_, W> {
    // The end of a line, the bytes that the next begins with, and what `text` prints.
    pub fn line<T: Display + Drop>(&mut self, text: T) -> io::Result<()>
        ensures bytes { OnOk result (IfSome (T.output text) (λ words. Appends (W.contents self.old.out.now) (W.contents self.new.out.now) (10 ∷ (self.old.begin.now ++ words)))) }
        ensures same_writer { self.new.out.ghost_name ≡ self.old.out.ghost_name }
        ensures same_begin { self.new.begin ≡ self.old.begin }
    {
        self.out.write_all(b"\n")?;
        self.out.write_all(self.begin)?;
        write!(self.out, "{text}")
    }

    // The finish rows 0 to n, a line each; of a row that belongs to no job, only what is not 0.
    pub fn rows(&mut self, rows: &[[u16; 64]; 65], n: usize) -> io::Result<()> {
        for (x, row) in rows.iter().enumerate() {
            if x <= n {
                self.line(format_args!(" row {x}{}", of_jobs(row, n)))?;
            } else {
                write!(self.out, "{}", of_jobs(row, 0))?;
            }
        }
        Ok(())
    }
}
