// The pieces of a plan text that stand between two places of it: a number, and given bytes. A function answers the place where the text goes on, or
// the one where it is stuck; a place past the text's end counts as its end. A text and a place are two parameters: what is promised here is of any
// text and any place of it (ground: number_one, expect_one, ending_one). Where both travel on, they are the Reader of plan_text.
#![tactic(auto)]

ghost use Rattle.std.specs.Prelude.{◌≡◌, [], ◌∷◌};
ghost use Rattle.forms.specs.Forms.{lf, begins, grows, more, number, byte as given, bytes};
ghost use Rattle.fields.specs.Cursors.{Found, Steps};

// A number that has been read, and where the text goes on behind it.
#[derive(Clone, Copy)]
pub struct Got {
    pub value: u16,
    pub at: usize,
}

// The place where a text is of the form no more.
#[derive(Clone, Copy)]
pub struct Stuck {
    pub at: usize,
}

// The byte may be the first digit of a number from `least` to `most`.
#[tactic(auto, using(std::proofs::lemmas::Bool::Decides::nat_tests), unfolding(forms::specs::Forms::begins))]
fn begins(least: u16, most: u16, b: u8) -> bool
    ensures { result ≡ begins least most b }
{
    b.is_ascii_digit() && (least..=most).contains(&u16::from(b - b'0'))
}

// The byte may go on with the number n: with it the number is at most `most`. Behind 0 no digit may stand.
#[tactic(auto, using(std::proofs::lemmas::Bool::Decides::nat_tests), unfolding(forms::specs::Forms::grows))]
fn grows(most: u16, n: u16, b: u8) -> bool
    ensures { result ≡ grows most n b }
{
    b.is_ascii_digit() && n != 0 && u32::from(n) * 10 + u32::from(b - b'0') <= u32::from(most)
}

// The number whose digits up to `at` are those of n, up to the byte `behind`. The loop counts places, since the answer is one.
fn more(text: &[u8], at: usize, most: u16, behind: u8, n: u16) -> Result<Got, Stuck>
    ensures { Found text.now at (more most behind n) result }
{
    let mut value = n;
    for i in at..text.len() {
        let b = text[i];
        if b == behind {
            return Ok(Got { value, at: i + 1 });
        }
        if !grows(most, value, b) {
            return Err(Stuck { at: i });
        }
        value = value * 10 + u16::from(b - b'0');
    }
    Err(Stuck { at: text.len() })
}

// The number from `least` to `most` that begins at `at`, with the byte `behind` behind it.
pub fn number(text: &[u8], at: usize, least: u16, most: u16, behind: u8) -> Result<Got, Stuck>
    ensures { Found text.now at (number least most behind) result }
{
    let Some(&b) = text.get(at) else {
        return Err(Stuck { at: text.len() });
    };
    if !begins(least, most, b) {
        return Err(Stuck { at });
    }
    more(text, at + 1, most, behind, u16::from(b - b'0'))
}

// The byte is read. (The place is compared, and not looked up by `get`, which takes a third more time.)
pub fn expect(text: &[u8], at: usize, byte: u8) -> Result<usize, Stuck>
    ensures { Steps text.now at (given byte) result }
{
    let end = text.len();
    if end <= at {
        Err(Stuck { at: end })
    } else if text[at] != byte {
        Err(Stuck { at })
    } else {
        Ok(at + 1)
    }
}

// The byte is read, and the line feed behind it.
pub fn ending(text: &[u8], at: usize, byte: u8) -> Result<usize, Stuck>
    ensures { Steps text.now at (bytes (byte ∷ lf ∷ [])) result }
{
    expect(text, expect(text, at, byte)?, b'\n')
}
