// A complete plan.
#![tactic(auto)]
