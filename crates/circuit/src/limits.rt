// The limits of document 01, each once in the code, and the types of its numbers. The same names stand in specs/Limits.antt, and the proofs
// hold the two together. Another width is another MAX_WIRES, with a Parity that holds its parities.

// A parity: bit i for wire i. Rows are parities, and so are the masks of wires that CNOTs are written by. It is a plain number, and clauses
// say that it is below PARITIES: C lends rows, moves and logs as numbers, among which no struct could lie, and a Parity of more bits than
// there are wires holds numbers that are no parities.
pub type Parity = u8;

// A weight, 0 to 7. Clauses say which weights and marks are sound, and no struct does: C lends them as bytes, and those that the trim owns
// are changed where they lie.
pub type Weight = u8;

// A mark of an odd set, 0 or 1.
pub type Mark = u8;

// A coefficient l, q or c.
pub type Coefficient = u8;

// One number of a move or of a log: z, the number in Y, or a member of Y.
pub type MoveCell = Parity;

// Wires 0 to MAX_WIRES - 1.
pub const MAX_WIRES: usize = 8;

// A gate takes three bytes: kind, a, b.
pub const GATE_BYTES: usize = 3;

pub const MAX_GATES: usize = 4096;

pub const MAX_LIST_BYTES: usize = GATE_BYTES * MAX_GATES;

// A parity is a number below this.
pub const PARITIES: usize = 1 << MAX_WIRES;

// The weights, and the marks of an odd set: one byte for each parity.
pub const TABLE_BYTES: usize = PARITIES;

// The rows: one parity for each wire.
pub const ROW_CELLS: usize = MAX_WIRES;

// One bit for each pair of wires i <= j.
pub const PRODUCT_BITS: usize = MAX_WIRES * (MAX_WIRES + 1) / 2;

// The most members of the set Y of a move.
pub const MAX_MEMBERS: usize = PRODUCT_BITS + 2;

// What stands before Y in the cells of a move: z and the number in Y.
pub const MOVE_HEAD: usize = 2;

// z, the number in Y, and Y.
pub const MOVE_CELLS: usize = MOVE_HEAD + MAX_MEMBERS;

// Each move takes a member from the odd set, which never has parity 0.
pub const MAX_MOVES: usize = PARITIES - 1;

pub const LOG_CELLS: usize = MOVE_CELLS * MAX_MOVES;

// One byte for each two wires, and for each three.
pub const PAIR_BYTES: usize = MAX_WIRES * MAX_WIRES;

pub const TRIPLE_BYTES: usize = MAX_WIRES * PAIR_BYTES;

pub const MAX_WEIGHT: Weight = 7;

pub const MAX_MARK: Mark = 1;

// The longest written list: two gates for each wire of each parity, and MAX_WIRES gates for each row.
pub const MAX_WRITTEN_GATES: usize = MAX_WIRES * PARITIES + MAX_WIRES * MAX_WIRES;

// The bytes to lend for it.
pub const WRITE_BYTES: usize = GATE_BYTES * MAX_WRITTEN_GATES;
