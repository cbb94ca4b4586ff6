// Answers the puzzles on standard input, line by line, on standard output (docs/INTERFACE.md, "The program `sheet`").
// What is read and written is known at a reader and a writer whose bytes are known: `run` says that all that is read is answered, and that
// nothing else is written.
#![tactic(auto)]

ghost use Rattle.std.specs.Prelude.{◌≡◌, ◌≢◌, ◌≤◌, ◌<◌, [], length, take, None, Some, OnOk, OnErr, IfOk, IfErr};
ghost use Rattle.std.specs.IoError.{error_kind};
ghost use Rattle.std.specs.Io.KnownBytes.{Consumes, IsAtEnd};
ghost use Rattle.sheet.specs.Run.{ReadFailed, AllAnswered, PartAnswered};

use arrayvec::ArrayVec;
use output::{Message, write_out};
use std::io::{ErrorKind, Read, Write};
use std::{fmt, io};
use text_stream::Stream;

// Why the program ends before its input.
#[derive(Clone, Copy, Debug)]
pub enum Failure {
    Read(io::Error),
    Write(io::Error),
}

impl fmt::Display for Failure {
    fn fmt<W: fmt::Write>(&self, f: &mut fmt::Formatter<W>) -> fmt::Result {
        let (what, error) = match self {
            Failure::Read(e) => ("sheet: cannot read standard input: ", *e),
            Failure::Write(e) => ("sheet: cannot write to standard output: ", *e),
        };
        Message { what, error }.fmt(f)
    }
}

// What a failed read is to the program: nothing where a signal interrupted it, since it is made again.
fn failed_read(e: io::Error) -> Option<Failure>
    ensures again { error_kind e ≡ ErrorKind.Interrupted → result ≡ None }
    ensures stops { error_kind e ≢ ErrorKind.Interrupted → result ≡ Some (Failure.Read e) }
{
    if e.kind() == ErrorKind::Interrupted {
        None
    } else {
        Some(Failure::Read(e))
    }
}

// Reads some of the input: no byte at its end. A read that a signal interrupts is made again.
fn read_some<R: Read>(reader: &mut R, block: &mut [u8]) -> Result<usize, Failure>
    requires { 0 < length block.old }
    ensures within { IfOk result (λ n. n ≤ length block.new) }
    ensures bytes { IfOk result (λ n. Consumes (R.remaining reader.old) (R.remaining reader.new) (take n block.new)) }
    ensures end { IfOk result (λ n. n ≡ 0 → IsAtEnd (R.remaining reader.new)) }
    ensures kept { OnErr result (Consumes (R.remaining reader.old) (R.remaining reader.new) []) }
    ensures told { IfErr result ReadFailed }
{
    // To 2^64, as in `write_out` and in the loop of `run`.
    for _ in 0..u64::MAX {
        match reader.read(block) {
            Ok(n) => return Ok(n),
            Err(e) => {
                if let Some(failure) = failed_read(e) {
                    return Err(failure);
                }
            }
        }
    }
    Err(Failure::Read(io::Error::from(ErrorKind::TimedOut)))
}

// Answers the whole input. Where a read or a write fails, what is written is a beginning of the answers.
pub fn run<R: Read, W: Write>(reader: &mut R, writer: &mut W) -> Result<(), Failure>
    ensures all { OnOk result (AllAnswered (R.remaining reader.old) (R.remaining reader.new)
        (W.contents writer.old) (W.contents writer.new)) }
    ensures part { OnErr result (PartAnswered (R.remaining reader.old) (R.remaining reader.new)
        (W.contents writer.old) (W.contents writer.new)) }
{
    let mut stream = Stream::new();
    let mut block = [0; 4096];
    // At most 101 bytes for each byte of a block.
    let mut out = ArrayVec::<u8, 413696>::new();
    for _ in 0..u64::MAX {
        let n = read_some(reader, &mut block)?;
        out.clear();
        if n == 0 {
            stream.append_last(&mut out);
            return write_out(writer, &out).map_err(Failure::Write);
        }
        stream.append_answers(&block[..n], &mut out);
        write_out(writer, &out).map_err(Failure::Write)?;
    }
    Err(Failure::Read(io::Error::from(ErrorKind::TimedOut)))
}

fn main(rt: HostRuntime) {
    if let Err(failure) = run(&mut rt.stdin(), &mut rt.stdout()) {
        // Where this write fails too, nothing is left to tell it by.
        let _ = rt.eprintln(failure);
    }
}
