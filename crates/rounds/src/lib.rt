// What the calls share that name a return in the stage that they take: the return and the numbers of its place, and sigma.
#![tactic(auto)]

pub mod named;
pub mod own;
