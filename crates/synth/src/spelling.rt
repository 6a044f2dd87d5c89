// How a weight is spelled (document 01, "The new weights", and document 02, 2.6). Internal: the caller has found no fault.
ghost use Rattle.std.specs.Prelude.{◌<◌};
ghost use Rattle.written.specs.Spelling.{spell};
ghost use Rattle.synth.specs.Storing.{Room, Stored};

use crate::storing::Writer;
use circuit::gates::GateKind::{S, SDagger, T, TDagger};
use circuit::limits::Weight;

// Weight v on wire t: 1 to 7 as T; S; S T; S S; S dagger T dagger; S dagger; T dagger. A rack may have no Z of its own.
#[tactic(auto, unfolding(written::specs::Spelling::spell, written::specs::Spelling::spelling))]
pub fn spell_out(to: &mut Writer<'_>, v: Weight, t: u8)
    requires { (v < 8) × Room to.old (spell v t) }
    ensures { Stored to.old to.new (spell v t) }
{
    match v {
        1 => to.push_each(&[T], t),
        2 => to.push_each(&[S], t),
        3 => to.push_each(&[S, T], t),
        4 => to.push_each(&[S, S], t),
        5 => to.push_each(&[SDagger, TDagger], t),
        6 => to.push_each(&[SDagger], t),
        7 => to.push_each(&[TDagger], t),
        _ => {}
    }
}
