// The plan and the layout of a job: the index over them, and what is asked of them. A loop is asked for by a number below 32, as each loop of a
// job that passed has one. What a job lacks is answered with nothing.
#![tactic(auto)]

pub mod answers;
pub mod index;
pub mod layout;
pub mod planned;
pub mod read;
