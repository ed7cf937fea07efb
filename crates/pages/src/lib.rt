// Pages: what is to be printed, as a value; the methods that put bytes, numbers and margins behind what a page holds; and the lines of the answers.
// Every function is total: what finds no room on the page is left out. None is `write!`, which promises what it wrote only where it does not fail.
#![tactic(auto)]

ghost use Rattle.std.specs.Prelude.{◌≡◌, [], ◌∷◌, pos, ◌-ℤ◌, take};
ghost use Rattle.model.specs.Texts.{decimal};
ghost use Rattle.model.specs.Printed.{signed};
ghost use Rattle.pages.specs.Pages.{page, more, put};

pub mod lines;

use itoa::Buffer;

// The first `length` bytes are to be printed; the others are 0. It is an array and a length, since `page` and `put` are stated of both.
#[derive(Clone, Copy)]
pub struct Page {
    pub bytes: [u8; 1024],
    pub length: usize,
}

impl Page {
    // A page with nothing on it.
    pub fn empty() -> Page
        ensures { result ≡ page [] }
    {
        Page {
            bytes: [0; 1024],
            length: 0,
        }
    }

    // One byte more, where the page lies: a page is too large to be copied for each byte of a text.
    fn add(&mut self, byte: u8)
        ensures { self.new ≡ more self.old byte }
    {
        if self.length < self.bytes.len() {
            self.bytes[self.length] = byte;
            self.length += 1;
        }
    }

    // One byte more.
    #[tactic(auto, unfolding(crate::specs::Pages::put))]
    pub fn with_byte(mut self, byte: u8) -> Page
        ensures { result ≡ put self (byte ∷ []) }
    {
        self.add(byte);
        self
    }

    // All bytes of a text.
    pub fn with_bytes(mut self, text: &[u8]) -> Page
        ensures { result ≡ put self text.now }
    {
        for &byte in text {
            self.add(byte);
        }
        self
    }

    // A number, in decimal. (One digit is put by itself, since the kit's text of it takes longer.)
    pub fn with_decimal(self, n: u64) -> Page
        ensures { result ≡ put self (decimal n) }
    {
        if n < 10 {
            return self.with_byte(b'0' + n as u8);
        }
        self.with_bytes(Buffer::new().format(n).as_bytes())
    }

    // A number behind a space.
    pub fn with_field(self, n: u64) -> Page
        ensures { result ≡ put self (32 ∷ decimal n) }
    {
        self.with_byte(b' ').with_decimal(n)
    }

    // A margin behind a space, from a deadline and a worst finish: with `-` where it is negative.
    pub fn with_margin(self, deadline: u64, worst: u64) -> Page
        ensures { result ≡ put self (32 ∷ signed (pos deadline -ℤ pos worst)) }
    {
        if deadline < worst {
            self.with_byte(b' ')
                .with_byte(b'-')
                .with_decimal(worst - deadline)
        } else {
            self.with_field(deadline - worst)
        }
    }

    // What is to be printed.
    pub fn shown(&self) -> &[u8]
        ensures { result.now ≡ take self.now.length self.now.bytes }
    {
        &self.bytes[..self.length.min(self.bytes.len())]
    }
}
