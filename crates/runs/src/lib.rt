#![tactic(auto)]

// Whole runs of two and three servers, computed, in proofs/. There is no code in this crate.
