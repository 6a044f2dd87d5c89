// The program `same` (document 02, 2.1): two texts from the files that its arguments name, one line to standard output. The line is that of
// `verdict::put_verdict`, and it is passed on as it is: both are proved. Which bytes the system gives and takes is assumed.
#![tactic(auto)]

ghost use Rattle.std.specs.Prelude.{◌≤◌, IfOk, OnOk, length, take, ℕ};
ghost use Rattle.std.specs.Io.KnownBytes.{Appends};
ghost use Rattle.input.specs.Kept.{Starts};
ghost use Rattle.same.specs.Lines.{Says, SaysInPart};
ghost use Rattle.same.specs.Names.{Named, prefix};

use input::read_input;
use output::{fail, write_all};
use std::env::{Env, FillError};
use std::fs::Files;
use std::io::{Read, Write};
use std::{fs, io};
use text::limits::{REFUSED_LINE_BYTES, TEXT_BYTES};
use verdict::{Verdict, Which, put_verdict};

// The program's own name, and two files.
const ARGUMENTS: usize = 3;

// What a line on standard error starts with.
const PREFIX: &[u8] = b"same: ";

// No name of a file that the system takes has more bytes.
const PATH_BYTES: usize = 4096;

const NAME_BYTES: usize = PREFIX.len() + PATH_BYTES;

// Numbers of the system's errors, so that the reason is told in the system's words, as where a file is not opened: `Invalid argument`,
// `File name too long`, `Invalid or incomplete multibyte or wide character`. Of an `ErrorKind` the library's own words would be printed:
// `invalid input parameter`, `invalid filename`, `invalid data`.
const INVALID_ARGUMENT: i32 = 22;

const NAME_TOO_LONG: i32 = 36;

const NOT_TEXT: i32 = 84;

// Why a text was not read, as standard error tells it.
#[derive(Drop)]
enum Failure {
    // An argument is not taken for the name of a file.
    Name(FillError),
    // The file that an argument names cannot be read.
    File { argument: usize, error: io::Error },
}

// Tells on standard error what no line says. The arguments name the files.
#[derive(Drop)]
struct Teller<'a, R, E> {
    rt: &'a R,
    errors: &'a mut E,
}

fn main(rt: HostRuntime) {
    let mut errors = rt.stderr();
    if !has_arguments(&rt) {
        let _ = write_all(&mut errors, b"usage: same FIRST SECOND\n");
        return;
    }
    let mut teller = Teller {
        rt: &rt,
        errors: &mut errors,
    };
    if let Err(failure) = teller.compare_files(&mut rt.stdout()) {
        let _ = teller.tell(failure);
    }
}

// Whether there are so many arguments, and no more. There is no room for one that is there, so it is too long unless it is empty.
fn has_arguments<R: Env>(rt: &R) -> bool {
    let is_there = |i| !matches!(rt.arg(i, &mut []), Err(FillError::NotPresent));
    is_there(ARGUMENTS - 1) && !is_there(ARGUMENTS)
}

// The first bytes of the file that an argument names, as many as decide, and how many they are.
fn read_file<R: Env + Files>(rt: &R, argument: usize, buf: &mut [u8]) -> Result<usize, Failure>
    ensures { IfOk result (λ bytes. bytes ≤ length buf.new) }
{
    let mut room = [0u8; NAME_BYTES];
    let name = put_name(rt, argument, &mut room).map_err(Failure::Name)?;
    let file = open(rt, &name[PREFIX.len()..]).map_err(|error| Failure::File { argument, error })?;
    read_and_close(file, buf).map_err(|error| Failure::File { argument, error })
}

// Names of files are UTF-8 in the library: it takes no others.
fn open<R: Files>(rt: &R, name: &[u8]) -> io::Result<R::File> {
    let path = str::from_utf8(name).map_err(|_| io::Error::from_raw_os_error(NOT_TEXT))?;
    fs::open(rt, path)
}

// The file is closed before another is opened: where standard input was closed, /dev/stdin would else be this file once more.
fn read_and_close<F: Read + Drop>(mut file: F, buf: &mut [u8]) -> io::Result<usize>
    ensures within { IfOk result (λ bytes. bytes ≤ length buf.new) }
    ensures starts { IfOk result (λ bytes. Starts (F.remaining file) (length buf.new) (take bytes buf.new)) }
{
    read_input(&mut file, buf)
}

// Why an argument is not taken for the name of a file. Both types are the library's, so that a `From` cannot stand here.
fn reason_of(fault: FillError) -> io::Error {
    match fault {
        FillError::TooLong => io::Error::from_raw_os_error(NAME_TOO_LONG),
        FillError::NotPresent => io::Error::from_raw_os_error(INVALID_ARGUMENT),
    }
}

// `same: ` and what an argument is, or why it is none: it is not there, or too long.
fn put_name<'a, R: Env>(rt: &R, argument: usize, room: &'a mut [u8]) -> Result<&'a [u8], FillError>
    requires { prefix ≤ length room.old }
    ensures { IfOk result (λ name. Named name.now) }
{
    room[..PREFIX.len()].copy_from_slice(PREFIX);
    let bytes = rt.arg(argument, &mut room[PREFIX.len()..])?;
    Ok(&room[..PREFIX.len() + bytes])
}

impl<'a, R: Env, E: Write> Teller<'a, R, E> {
    // Both files are read before either text is judged. What cannot be written is told where it is. 1 and 2 are places of the program's
    // arguments, which the system is asked for: `Which` names the texts of a verdict, and would only become these numbers again.
    fn compare_files<W: Write>(&mut self, out: &mut W) -> Result<(), Failure>
    where
        R: Files,
    {
        let mut first_room = [0u8; TEXT_BYTES];
        let mut second_room = [0u8; TEXT_BYTES];
        let first = read_file(self.rt, 1, &mut first_room)?;
        let second = read_file(self.rt, 2, &mut second_room)?;
        let _ = self.reply_to(&first_room[..first], &second_room[..second], out);
        Ok(())
    }

    // The line to standard output, where there is one; standard error names the files that it does not tell.
    fn reply_to<W: Write>(&mut self, first: &[u8], second: &[u8], out: &mut W) -> io::Result<()>
        ensures whole { OnOk result (Says first.now second.now (W.contents out.old) (W.contents out.new)) }
        ensures part { SaysInPart first.now second.now (W.contents out.old) (W.contents out.new) }
    {
        let mut line = [0u8; REFUSED_LINE_BYTES];
        let Some(Verdict { bytes, refused }) = put_verdict(first, second, &mut line) else {
            self.tell_apart();
            return Ok(());
        };
        let written = self.write_line(&line[..bytes], out);
        match refused {
            None => {}
            Some(Which::First) => self.tell_refused(1),
            Some(Which::Second) => self.tell_refused(2),
        }
        written
    }

    fn write_line<W: Write>(&mut self, line: &[u8], out: &mut W) -> io::Result<()>
        ensures whole { OnOk result (Appends (W.contents out.old) (W.contents out.new) line.now) }
        ensures part { (k : ℕ) × Appends (W.contents out.old) (W.contents out.new) (take k line.now) }
    {
        let written = write_all(out, line);
        if let Err(error) = written {
            let _ = fail(self.errors, b"same: standard output", error);
        }
        written
    }

    // One line: the file that is refused.
    fn tell_refused(&mut self, argument: usize) {
        let mut room = [0u8; NAME_BYTES];
        let name = self.shown_name(argument, &mut room);
        let _ = write_all(self.errors, name);
        let _ = write_all(self.errors, b": refused\n");
    }

    // One line: both files.
    fn tell_apart(&mut self) {
        let mut first_room = [0u8; NAME_BYTES];
        let mut second_room = [0u8; NAME_BYTES];
        let first = self.shown_name(1, &mut first_room);
        let second = self.shown_name(2, &mut second_room);
        let _ = write_all(self.errors, first);
        let _ = write_all(self.errors, b" and ");
        let _ = write_all(self.errors, &second[PREFIX.len()..]);
        let _ = write_all(self.errors, b" have different wire counts\n");
    }

    // One line: the file, and the reason.
    fn tell(&mut self, failure: Failure) -> io::Result<()> {
        match failure {
            Failure::Name(fault) => fail(
                self.errors,
                b"same: the name of a file",
                reason_of(fault),
            ),
            Failure::File { argument, error } => {
                let mut room = [0u8; NAME_BYTES];
                let name = self.shown_name(argument, &mut room);
                fail(self.errors, name, error)
            }
        }
    }

    // `same: ` and the name of a file that was taken before; one that is not there would be left out.
    fn shown_name<'b>(&self, argument: usize, room: &'b mut [u8]) -> &'b [u8]
        requires { prefix ≤ length room.old }
        ensures { Named result.now }
    {
        put_name(self.rt, argument, room).unwrap_or(PREFIX)
    }
}
