// The C functions of a server, called one after another, in specs/ and proofs/. There is no code in this crate.
#![tactic(auto)]
