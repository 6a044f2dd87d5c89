// Legal moves on an odd set (document 01, "Legal moves"): what they are, that a move keeps the signature and makes the odd set smaller,
// how few members are left where none is legal, and when a number z has one. Definitions in specs/; proofs/Laws states the theorems.
// The code beside it looks at one mark or flips it, gives one of two partners, and names what a search may find.

#![tactic(auto)]

pub mod marks;
pub mod partner;

// Whether a search has found a legal move. It is no Option<Move>, since C lends the cells that hold the move. Nor is it a bool, of which
// neither value says by itself what was found.
#[derive(Clone, Copy, Debug, PartialEq, Eq)]
pub enum Sought {
    // It has: the cells lent hold the move.
    Found,
    // None is legal, and the cells are as they were.
    Nothing,
}
