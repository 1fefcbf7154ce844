// What the steps of the walk write: bytes, segments, findings, stops.
#![tactic(auto)]

pub mod cells;
pub mod closer;
pub mod envelope;
pub mod findings;
pub mod laws;
pub mod signs;
pub mod state;
