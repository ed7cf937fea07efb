// What a line of a file of cases holds: its numbers, what it builds of a set, or a text.
//   set NAME                  a new set, with no job and no order
//   job A D LEVEL LO HI       one job more; with a sixth number, that many
//   lo J ..   hi J ..         the LO order, the HI order
//   counts N LO HI            the three counts as given, over whatever the room holds
//   text HEX                  a text, two hex digits a byte, at most 5,000 bytes
// Every function is total. Any other line builds nothing, and a text leaves the set as it is.
#![tactic(auto)]

mod numbers;
mod sets;
mod texts;

pub use numbers::{Numbers, nth, numbers_in, short, shorts};
pub use sets::build;
pub use texts::{Text, text_in};
