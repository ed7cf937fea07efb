// The analysis of document 01, as one library: the pick, one run and its slots, the scenarios, finish rows, the verdict, worst finishes and margins, the two tables, the part.
// Every function is total. Each but the pick and the part refuses by checks 2 to 7 first.
#![tactic(auto)]

pub use parts::{part, part_refusal};
pub use picks::pick;
pub use runs::{execute, slots};
pub use tables::make_tables;
pub use verdicts::{assess, finish_rows, judge, margins, rows_refusal, worst_finishes};
