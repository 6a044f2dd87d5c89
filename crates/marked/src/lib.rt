// The marked cases of document 01, collected in one table (specs/Cases) and shown by one theorem about the definitions (proofs/Marked).
// There is no code.

#![tactic(auto)]
