#![tactic(auto)]

// What a curious server learns, as definitions and theorems in specs/ and proofs/. There is no code in this crate.
