// All bytes to a writer, or a beginning of them and the reason; and a reason in the system's words.
#![tactic(auto)]

ghost use Rattle.std.specs.Prelude.{◌≢◌, OnOk, OnErr, IfErr};
ghost use Rattle.std.specs.Io.{WritesAtMost};
ghost use Rattle.std.specs.IoError.{error_kind};
ghost use Rattle.std.specs.Io.KnownBytes.{Appends, WriteAppends};
ghost use Rattle.output.specs.Output.{StartsOut};

use std::fmt::Write as _;
use std::io::{ErrorKind, Write};
use std::{fmt, io};

// What failed, and the system's reason.
#[derive(Clone, Copy)]
pub struct Message<'a> {
    pub what: &'a str,
    pub error: io::Error,
}

// The text of an error on its way to a writer, until std adds the system's number.
#[derive(Drop)]
struct WithoutNumber<'a, W> {
    writer: Option<&'a mut W>,
}

impl<'a, W: fmt::Write> fmt::Write for WithoutNumber<'a, W> {
    fn write_str(&mut self, s: &str) -> fmt::Result {
        if s == " (os error " {
            self.writer = None;
        }
        match &mut self.writer {
            Some(writer) => writer.write_str(s),
            None => Ok(()),
        }
    }
}

impl<'a> fmt::Display for Message<'a> {
    fn fmt<W: fmt::Write>(&self, f: &mut fmt::Formatter<W>) -> fmt::Result {
        f.write_str(self.what)?;
        WithoutNumber { writer: Some(f) }.write(self.error)
    }
}

// Writes some of the bytes: none where a signal interrupted the write, which is to be made again.
fn write_some<W: Write>(writer: &mut W, bytes: &[u8]) -> io::Result<usize>
    ensures within { WritesAtMost result bytes.now }
    ensures bytes { WriteAppends (W.contents writer.old) (W.contents writer.new) result bytes.now }
    ensures again { IfErr result (λ e. error_kind e ≢ ErrorKind.Interrupted) }
{
    match writer.write(bytes) {
        Ok(0) => Err(io::Error::from(ErrorKind::WriteZero)),
        Err(e) if e.kind() == ErrorKind::Interrupted => Ok(0),
        written => written,
    }
}

// Writes all bytes, or tells why not. The library's `write_all` promises nothing of what is written where it fails.
pub fn write_out<W: Write>(writer: &mut W, bytes: &[u8]) -> io::Result<()>
    ensures all { OnOk result (Appends (W.contents writer.old) (W.contents writer.new) bytes.now) }
    ensures cut { OnErr result (StartsOut (W.contents writer.old) (W.contents writer.new) bytes.now) }
    ensures again { IfErr result (λ e. error_kind e ≢ ErrorKind.Interrupted) }
{
    let mut done = 0;
    // To 2^64: a signal may come any number of times, and a loop without an end would need a handle.
    for _ in 0..u64::MAX {
        if done == bytes.len() {
            return Ok(());
        }
        done += write_some(writer, &bytes[done..])?;
    }
    Err(io::Error::from(ErrorKind::TimedOut))
}
