// Nothing is lost of a job with a complete plan (docs/RULES.md, "Nothing is lost"): definitions, and the proof over them.
#![tactic(auto)]

pub mod laws;
