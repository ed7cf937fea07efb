// An answer of the library as text. `Words`, `Switch`, `Gets`, `List` and `Table` print; `Lines` gives a writer an answer's
// lines, such as the finish rows, and stops with the error of the first write that fails.
#![tactic(auto)]

mod answers;
mod lines;
mod lists;

pub use answers::{Gets, Switch, Words};
pub use lines::Lines;
pub use lists::{List, Table, of_jobs};
