// Texts from a reader, for the programs. Which bytes the system puts into a buffer, no contract can say. No entry.
#![tactic(auto)]

ghost use Rattle.std.specs.Prelude.{◌≤◌, IfOk, length, take};
ghost use Rattle.input.specs.Kept.{Takes};

use std::io;
use std::io::Read;

// Reads to the end of the input, or until the buffer is full, and gives how many bytes were read: they stand at the start of the buffer.
// They are no slice: of a buffer from which a result borrows no clause says what it then holds. A read that fails is not an end: half a
// circuit would be another circuit.
pub fn read_input<R: Read>(from: &mut R, buf: &mut [u8]) -> io::Result<usize>
    ensures within { IfOk result (λ bytes. bytes ≤ length buf.new) }
    ensures takes { IfOk result (λ bytes. Takes (R.remaining from.old) (R.remaining from.new) (length buf.new) (take bytes buf.new)) }
{
    let mut done: usize = 0;
    while done < buf.len() {
        let bytes = from.read(&mut buf[done..])?;
        if bytes == 0 {
            break;
        }
        done += bytes;
    }
    Ok(done)
}
