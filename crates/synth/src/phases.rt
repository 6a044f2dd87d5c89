// Writing the weights: each parity in turn on its lowest wire, between CNOTs that bring the parity there and take it away again.
// Internal: the caller has found no fault.
ghost use Rattle.std.specs.Prelude.{◌^◌};
ghost use Rattle.circuit.specs.Limits.{max_wires};
ghost use Rattle.synth.specs.Storing.{ParityReady, PhasesReady, Stored};
ghost use Rattle.written.specs.Writing.{write_parity, write_phases};

use crate::spelling::spell_out;
use crate::storing::Writer;
use circuit::limits::{Parity, TABLE_BYTES, Weight};
use circuit::parity::{lowest, unit};

// All parities.
pub fn write_phases(to: &mut Writer<'_>, weights: &[Weight; TABLE_BYTES])
    requires { PhasesReady to.old weights.now }
    ensures { Stored to.old to.new (write_phases max_wires to.old.wires.count weights.now (2 ^ to.old.wires.count)) }
{
    for (p, &v) in weights[..to.wires.parities()].iter().enumerate() {
        write_parity(to, p as Parity, v);
    }
}

// Weight v at parity p; no gate for weight 0.
fn write_parity(to: &mut Writer<'_>, p: Parity, v: Weight)
    requires { ParityReady to.old p v }
    ensures { Stored to.old to.new (write_parity max_wires to.old.wires.count p v) }
{
    if v == 0 {
        return;
    }
    let t = lowest(p);
    let q = p ^ unit(t);
    let w = t as u8;
    to.push_cnots(q, w);
    spell_out(to, v, w);
    to.push_cnots(q, w);
}
