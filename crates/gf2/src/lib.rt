// The mathematics of bits that every other crate cites: bits and xor, the parity p(x), sums over a range, combinations of a list of
// vectors over GF(2), and tables of numbers. Definitions in specs/, laws in proofs/, all over n; there is no code.

#![tactic(auto)]
