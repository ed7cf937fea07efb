// The bytes that a line gives in hex.
ghost use Rattle.std.specs.Prelude.{◌≡◌, ◌≤◌, take};

// The bytes of a text, as many as `length`, with room for 5,000. (An array and a length, and no ArrayVec: whoever holds it may copy it.)
#[derive(Clone, Copy)]
pub struct Text {
    pub bytes: [u8; 5000],
    pub length: usize,
}

impl Text {
    // The bytes that there are.
    pub fn as_slice(&self) -> &[u8]
        ensures { result.now ≡ take self.now.length self.now.bytes }
    {
        self.bytes.get(..self.length).unwrap_or(&self.bytes)
    }
}

// The value of a hex digit in lower case. It is 0 for any other byte: a rule of the file of cases. By hand, since `to_digit` reads upper case too.
fn digit_value(b: u8) -> u8
    ensures { result ≤ 15 }
{
    match b {
        b'0'..=b'9' => b - b'0',
        b'a'..=b'f' => b - b'a' + 10,
        _ => 0,
    }
}

// The byte whose two hex digits begin at an index. It is 0 where they do not both stand there: a rule of the file of cases.
fn byte_at(hex: &[u8], i: usize) -> u8 {
    match hex.get(i..) {
        Some([high, low, ..]) => digit_value(*high) * 16 + digit_value(*low),
        _ => 0,
    }
}

// The text of a line: two hex digits a byte, after the word `text` and a space. (By index, and no `chunks`: a file of cases holds thousands of texts, and `chunks`
// takes three times as long.)
pub fn text_in(line: &[u8]) -> Text {
    let hex = line.get(5..).unwrap_or(&[]);
    let length = hex.len().div_ceil(2).min(5000);
    let mut bytes = [0; 5000];
    for i in 0..length {
        bytes[i] = byte_at(hex, 2 * i);
    }
    Text { bytes, length }
}
