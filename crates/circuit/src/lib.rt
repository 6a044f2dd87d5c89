// Circuits of CNOT, T, S, Z and their inverses: what a list of gates does, which weights and rows it has, and which faults it can have
// (document 01). No entry: the code here is what the other crates share. proofs/Laws is the page to read.
#![tactic(auto)]

pub mod bits;
pub mod faults;
pub mod gates;
pub mod limits;
pub mod parity;
pub mod wires;
