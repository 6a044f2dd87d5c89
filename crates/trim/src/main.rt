// The program `trim` (document 01, "Text form"): a text from standard input, the reply to standard output. The reply is that of
// `answer::answer`, and it is passed on as it is: both are proved. Which bytes the system gives and takes is assumed.
#![tactic(auto)]

ghost use Rattle.std.specs.Prelude.{IfErr, IfSome, OnOk};
ghost use Rattle.output.specs.Told.{TellsFailure};
ghost use Rattle.trim.specs.Replies.{LeftBy, Replies, RepliesInPart};
ghost use Rattle.trim.specs.Streams.{name_of};

use answer::answer;
use input::read_input;
use output::{fail, write_all};
use std::io;
use std::io::{Read, Write};
use text::limits::{REPLY_BYTES, TEXT_BYTES};

// The stream that failed, and why.
#[derive(Drop)]
enum Failure {
    Reading(io::Error),
    Writing(io::Error),
}

fn main(rt: HostRuntime) {
    if let Err(failure) = trim_text(&mut rt.stdin(), &mut rt.stdout()) {
        let _ = tell(failure, &mut rt.stderr());
    }
}

// The first TEXT_BYTES bytes of a text decide its reply, so no more are read.
fn trim_text<R: Read, W: Write>(from: &mut R, out: &mut W) -> Result<(), Failure>
    ensures whole { OnOk result (IfSome (R.remaining from.old) (λ text. Replies text (W.contents out.old) (W.contents out.new))) }
    ensures part { IfErr result (λ failure. LeftBy failure (R.remaining from.old) (W.contents out.old) (W.contents out.new)) }
{
    let mut room = [0u8; TEXT_BYTES];
    let bytes = read_input(from, &mut room).map_err(Failure::Reading)?;
    reply_to(&room[..bytes], out).map_err(Failure::Writing)
}

// Where the reply cannot be written whole, its first part may be.
fn reply_to<W: Write>(text: &[u8], out: &mut W) -> io::Result<()>
    ensures whole { OnOk result (Replies text.now (W.contents out.old) (W.contents out.new)) }
    ensures part { RepliesInPart text.now (W.contents out.old) (W.contents out.new) }
{
    let mut reply = [0u8; REPLY_BYTES];
    // There is room for every reply.
    let bytes = answer(text, &mut reply).unwrap();
    write_all(out, &reply[..bytes])
}

// One line: which stream failed, and the reason.
fn tell<E: Write>(failure: Failure, errors: &mut E) -> io::Result<()>
    ensures { OnOk result (TellsFailure (name_of failure) (E.contents errors.old) (E.contents errors.new)) }
{
    match failure {
        Failure::Reading(error) => fail(errors, b"trim: standard input", error),
        Failure::Writing(error) => fail(errors, b"trim: standard output", error),
    }
}
