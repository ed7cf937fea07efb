// The rules of document 01 for one job and for one order, which the checks go by. Every public function is total.
#![tactic(auto)]

pub mod jobs;
pub mod orders;
