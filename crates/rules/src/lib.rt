#![tactic(auto)]

// Document 01 as definitions, and the theorems about them, in specs/ and proofs/. There is no code in this crate.
