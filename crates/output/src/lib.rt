// Bytes to a writer, for the programs, and the line that tells what failed. What the system does with them, no contract can say. No entry.
#![tactic(auto)]

ghost use Rattle.std.specs.Prelude.{OnOk, take, ℕ};
ghost use Rattle.std.specs.Io.KnownBytes.{Appends};
ghost use Rattle.output.specs.Told.{TellsFailure};

use std::io;
use std::io::{ErrorKind, Write};

// Writes the bytes in their order: all of them, or where a write fails their first part. No bytes, no write. What fails is not tried again.
// The library's `write_all` promises nothing of the part that was written where a write fails, and tries again where one was interrupted.
pub fn write_all<W: Write>(to: &mut W, bytes: &[u8]) -> io::Result<()>
    ensures whole { OnOk result (Appends (W.contents to.old) (W.contents to.new) bytes.now) }
    ensures part { (k : ℕ) × Appends (W.contents to.old) (W.contents to.new) (take k bytes.now) }
{
    let mut rest = bytes;
    while !rest.is_empty() {
        let more = to.write(rest)?;
        if more == 0 {
            return Err(io::Error::from(ErrorKind::WriteZero));
        }
        rest = &rest[more..];
    }
    Ok(())
}

// Room for a reason of the C library, and for the number that std puts behind it.
const REASON_BYTES: usize = 320;

// What std puts between the words of the C library and its number for an error.
const BEHIND_REASON: &[u8] = b" (os error ";

// One line: what failed, as the caller names it, and the reason.
pub fn fail<W: Write>(to: &mut W, what: &[u8], error: io::Error) -> io::Result<()>
    ensures { OnOk result (TellsFailure what.now (W.contents to.old) (W.contents to.new)) }
{
    let mut room = [0u8; REASON_BYTES];
    let reason = reason_in(error, &mut room);
    // Four writes, and no `write!`: what failed and the reason are bytes, since the name of a file need not be text.
    write_all(to, what)?;
    write_all(to, b": ")?;
    write_all(to, reason)?;
    write_all(to, b"\n")
}

// The reason, put into what is lent: the words alone, without the number behind them. Nothing is promised: the words are the system's.
fn reason_in(error: io::Error, room: &mut [u8]) -> &[u8] {
    let mut rest: &mut [u8] = &mut room[..];
    let _ = write!(rest, "{error}");
    let unused = rest.len();
    let said = &room[..room.len().saturating_sub(unused)];
    let end = said
        .windows(BEHIND_REASON.len())
        .position(|part| part == BEHIND_REASON)
        .unwrap_or(said.len());
    &said[..end]
}
