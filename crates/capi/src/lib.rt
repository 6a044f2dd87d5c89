// The C interface: each public entry once more as an exported function, thin. include/sulmedra.h declares them for C.
// A slice passes as a pointer and a length. A reply is a struct of numbers: the fault's number, 0 for none, its place, and its values.
#![tactic(auto)]

ghost use Rattle.std.specs.Prelude.{◌≡◌};
ghost use Rattle.reader.specs.Entry.{ReadList};
ghost use Rattle.rests.specs.Entry.{NewWeightsOf};
ghost use Rattle.weights.specs.Entry.{OddSetOf, CoefficientsOf};
ghost use Rattle.compare.specs.Entry as comparing;
ghost use Rattle.carry.specs.Entry as carrying;
ghost use Rattle.finder.specs.Entry as find;
ghost use Rattle.synth.specs.Entry as write;
ghost use Rattle.trimmer.specs.Entry as trim;
ghost use Rattle.text.specs.Entry as read_text;
ghost use Rattle.answer.specs.Entry as answers;
ghost use Rattle.capi.specs.InC.{InC, CompareInC, CarryInC, FindInC, WriteInC, TrimInC, TextInC, AnswerInC, MoveInC};

use circuit::limits::{Coefficient, Mark, MoveCell, Parity, Weight};
use creply::{
    SulmedraAnswered, SulmedraCarried, SulmedraCompared, SulmedraFound, SulmedraPart,
    SulmedraReply, SulmedraText, SulmedraTrimmed, SulmedraWritten,
};

// `reader::read`.
#[unsafe(no_mangle)]
pub extern "C" fn sulmedra_read(
    n: usize,
    gates: &[u8],
    weights: &mut [Weight],
    rows: &mut [Parity],
) -> SulmedraReply
    ensures { InC (ReadList n gates.now weights.old rows.old weights.new
        rows.new) result.number result.place }
{
    reader::read(n, gates, weights, rows).into()
}

// `weights::odd_set`.
#[unsafe(no_mangle)]
pub extern "C" fn sulmedra_odd_set(
    n: usize,
    weights: &[Weight],
    marks: &mut [Mark],
) -> SulmedraReply
    ensures { InC (OddSetOf n weights.now marks.old marks.new) result.number result.place }
{
    weights::odd_set(n, weights, marks).into()
}

// `weights::coefficients`.
#[unsafe(no_mangle)]
pub extern "C" fn sulmedra_coefficients(
    n: usize,
    weights: &[Weight],
    l: &mut [Coefficient],
    q: &mut [Coefficient],
    c: &mut [Coefficient],
) -> SulmedraReply
    ensures { InC (CoefficientsOf n weights.now l.old q.old c.old
        l.new q.new c.new) result.number result.place }
{
    weights::coefficients(n, weights, l, q, c).into()
}

// `rests::new_weights`.
#[unsafe(no_mangle)]
pub extern "C" fn sulmedra_new_weights(
    n: usize,
    weights: &[Weight],
    marks: &[Mark],
    out: &mut [Weight],
) -> SulmedraReply
    ensures { InC (NewWeightsOf n weights.now marks.now out.old out.new)
        result.number result.place }
{
    rests::new_weights(n, weights, marks, out).into()
}

// `compare::compare`.
#[unsafe(no_mangle)]
pub extern "C" fn sulmedra_compare(n: usize, first: &[u8], second: &[u8]) -> SulmedraCompared
    ensures { CompareInC (comparing.ComparesLists n first.now second.now)
        result.number result.place result.same }
{
    compare::compare(n, first, second).into()
}

// `carry::carry_out`.
#[unsafe(no_mangle)]
pub extern "C" fn sulmedra_carry_out(
    n: usize,
    marks: &mut [Mark],
    cells: &[MoveCell],
) -> SulmedraCarried
    ensures { CarryInC (carrying.CarriesOut n marks.old cells.now marks.new)
        result.number result.place result.differ }
{
    carry::carry_out(n, marks, cells).into()
}

// `finder::find`.
#[unsafe(no_mangle)]
pub extern "C" fn sulmedra_find(n: usize, marks: &[Mark], cells: &mut [MoveCell]) -> SulmedraFound
    ensures { FindInC (find.FindMove n marks.now cells.old cells.new)
        result.number result.place result.found }
{
    finder::find(n, marks, cells).into()
}

// `synth::write`.
#[unsafe(no_mangle)]
pub extern "C" fn sulmedra_write(
    n: usize,
    weights: &[Weight],
    rows: &[Parity],
    gates: &mut [u8],
) -> SulmedraWritten
    ensures { WriteInC (write.WriteList n weights.now rows.now gates.old gates.new)
        result.number result.place result.gates }
{
    synth::write(n, weights, rows, gates).into()
}

// `trimmer::trim`.
#[unsafe(no_mangle)]
pub extern "C" fn sulmedra_trim(
    n: usize,
    gates: &[u8],
    out: &mut [u8],
    log: &mut [MoveCell],
) -> SulmedraTrimmed
    ensures { TrimInC (trim.TrimList n gates.now out.old log.old out.new
        log.new) result.number result.place result.tin result.odd result.tout result.moves result.gates }
{
    trimmer::trim(n, gates, out, log).into()
}

// `carry::move_at`, as a place in the log.
#[unsafe(no_mangle)]
pub extern "C" fn sulmedra_move_at(log: &[MoveCell], k: usize) -> SulmedraPart
    ensures { MoveInC log.now k result.start result.length }
{
    let length = carry::move_at(log, k).len();
    SulmedraPart {
        start: (k * length) as u64,
        length: length as u64,
    }
}

// `text::read_text`.
#[unsafe(no_mangle)]
pub extern "C" fn sulmedra_read_text(text: &[u8], gates: &mut [u8]) -> SulmedraText
    ensures { TextInC (read_text.ReadText text.now gates.old gates.new)
        result.number result.place result.wires result.gates }
{
    text::read_text(text, gates).into()
}

// `answer::answer`.
#[unsafe(no_mangle)]
pub extern "C" fn sulmedra_answer(text: &[u8], out: &mut [u8]) -> SulmedraAnswered
    ensures { AnswerInC (answers.AnswerText text.now out.old out.new)
        result.number result.place result.bytes }
{
    answer::answer(text, out).into()
}
