// The decimal numbers of a line: each is a word behind a space that begins with a digit.
ghost use Rattle.std.specs.Prelude.{◌≡◌, min, get_or, take};

use std::array;

// The numbers of a line, as many as `count`, with room for 72. (An array and a count, and no ArrayVec: whoever holds them may copy them.)
#[derive(Clone, Copy)]
pub struct Numbers {
    pub values: [u64; 72],
    pub count: usize,
}

impl Numbers {
    // The numbers that there are.
    pub fn as_slice(&self) -> &[u64]
        ensures { result.now ≡ take self.now.count self.now.values }
    {
        self.values.get(..self.count).unwrap_or(&self.values)
    }

    // One more, while there is room.
    fn add(&mut self, n: u64) {
        if let Some(place) = self.values.get_mut(self.count) {
            *place = n;
            self.count += 1;
        }
    }
}

// The largest number of 18 digits.
const EIGHTEEN_NINES: u64 = 999_999_999_999_999_999;

// One digit more. A number of more than 19 digits is read as the largest, which `saturating_mul` would do of some with 20 only.
fn with_digit(n: u64, digit: u8) -> u64 {
    if n > EIGHTEEN_NINES {
        return u64::MAX;
    }
    n * 10 + u64::from(digit)
}

// The decimal number that a word is, up to a byte below the digits.
fn number_of(word: &[u8]) -> u64 {
    word.iter()
        .map_while(|b| b.checked_sub(b'0'))
        .fold(0, with_digit)
}

// The decimal numbers of a line in their order. What is beyond 72 finds no room, and is left out.
pub fn numbers_in(line: &[u8]) -> Numbers {
    let mut numbers = Numbers {
        values: [0; 72],
        count: 0,
    };
    for word in line.split(|b| *b == b' ').skip(1) {
        if matches!(word, [b'0'..=b'9', ..]) {
            numbers.add(number_of(word));
        }
    }
    numbers
}

// A number of the line by its place, from 0. It is 0 where the line has fewer: a rule of the file of cases, whose lines may leave their last numbers out.
pub fn nth(numbers: &[u64], i: usize) -> u64
    ensures { result ≡ get_or numbers.now i 0 }
{
    numbers.get(i).copied().unwrap_or(0)
}

// The first N numbers of a line, as 16 bits hold them; 0 where it has fewer, by the same rule.
pub fn first_shorts<const N: usize>(numbers: &[u64]) -> [u16; N] {
    array::from_fn(|i| short(nth(numbers, i)))
}

// The first 64 numbers of a line, as many as an order may have.
pub fn shorts(numbers: &[u64]) -> [u16; 64] {
    first_shorts(numbers)
}

// A number as 16 bits hold it, the largest where they do not.
pub fn short(n: u64) -> u16
    ensures { result ≡ min n 65535 }
{
    u16::try_from(n).unwrap_or(u16::MAX)
}
