// What is asked of a set in a file of cases, and the library's answer as text (crate answer_text).
#![tactic(auto)]

mod answers;
mod lent;
mod question;

pub use answers::answer;
pub use question::Question;
