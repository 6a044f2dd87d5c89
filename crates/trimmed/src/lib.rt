// Demand 3 as one record (specs/Trimmed), the theorem that puts it together from its parts (proofs/Whole), and what follows from it alone:
// trimming again changes nothing (specs/Again, proofs/Laws). There is no code but the type of the counts, of which the records speak.

#![tactic(auto)]

// The counts of a trim: T and T dagger gates of C, the size of its odd set, T and T dagger gates of D, the moves in the log, the gates
// of D.
#[derive(Clone, Copy, Debug, Default, PartialEq, Eq)]
pub struct Counts {
    pub tin: usize,
    pub odd: usize,
    pub tout: usize,
    pub moves: usize,
    pub gates: usize,
}
