// Definitions and laws only, in specs/ and proofs/: see specs/Lib.antt. There is no code in this crate.
#![tactic(auto)]
