// Of two partners y and y ^ z the one without wire t, a wire of z. The finder and the check of a move look at this one alone. Internal: the
// caller names parities.
ghost use Rattle.std.specs.Prelude.{◌≡◌, ◌<◌};
ghost use Rattle.circuit.specs.Limits.{max_wires, parities};
ghost use Rattle.moves.specs.Column.{bar};

// Without a branch, since members are hard to foresee: of numbers of 64 bits the compiler makes none here, of bytes it may.
pub fn bar(z: u64, t: usize, y: u64) -> u64
    requires { (t < max_wires) × (z < parities) × (y < parities) }
    ensures { (result ≡ bar z t y) × (result < parities) }
{
    y ^ ((y >> t) % 2 * z)
}
