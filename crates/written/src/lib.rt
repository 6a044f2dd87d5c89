// Lists written for weights and rows (document 01, "The new weights"): what such a list is, the one that this library writes, that it reads
// back, and when rows or a call have a fault. The definitions are in specs/; proofs/Laws states the theorems. There is no code.

#![tactic(auto)]
