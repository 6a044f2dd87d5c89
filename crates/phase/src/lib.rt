// Phases by their coefficients: l, q and c of weights, the signature, and the new weights (document 01, "Signature" and "The new weights").
// The definitions are in specs/; proofs/Laws states the theorems. Mathematics only, over n.

#![tactic(auto)]
