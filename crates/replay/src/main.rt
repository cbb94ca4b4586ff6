// Replays the list of answers on standard input against the engine: a line for each call, a line for all, and where the first difference is, if
// there is one. What cannot be read counts as one answer that differs.
#![tactic(auto)]

ghost use Rattle.std.specs.Prelude.{◌≡◌, ◌≢◌, ◌≤◌, ◌<◌, length, take, IfOk, IfErr};
ghost use Rattle.std.specs.Io.KnownBytes.{Consumes, IsAtEnd};
ghost use Rattle.std.specs.IoError.{error_kind};

use record_fields::Call;
use replay_records::{first_difference, replay_wanted};
use std::io;
use std::io::{ErrorKind, Read};

// A line such as "target sums: 213 replayed, 0 differ" for each call, and one for all.
fn print_report(rt: &impl Print, list: &[u8]) -> io::Result<()> {
    for call in Call::ALL {
        let tally = replay_wanted(list, |read| read == Some(call));
        println!(rt;
            "{call}: {} replayed, {} differ",
            tally.replayed, tally.differ
        )?;
    }
    let all = replay_wanted(list, |_| true);
    println!(rt; "{} answers, {} differ", all.replayed, all.differ)?;
    // The tally is asked first: where nothing differs, the calls need not be run once more to find where.
    if 0 < all.differ
        && let Some(at) = first_difference(list)
    {
        println!(rt; "the first at byte {at}")?;
    }
    Ok(())
}

// Reads until the room is full or the input ends, and tells how many bytes stand at the front. A read that a signal interrupts is made again.
fn read_full<R: Read>(reader: &mut R, room: &mut [u8]) -> io::Result<usize>
    ensures within { IfOk result (λ n. n ≤ length room.new) }
    ensures bytes { IfOk result (λ n. Consumes (R.remaining reader.old) (R.remaining reader.new) (take n room.new)) }
    ensures whole { IfOk result (λ n. n < length room.new → IsAtEnd (R.remaining reader.new)) }
    ensures again { IfErr result (λ e. error_kind e ≢ ErrorKind.Interrupted) }
{
    let mut done = 0;
    // To 2^64: a signal may come any number of times, and a loop without an end would need a handle.
    for _ in 0..u64::MAX {
        if done == room.len() {
            return Ok(done);
        }
        match reader.read(&mut room[done..]) {
            Ok(0) => return Ok(done),
            Ok(n) => done += n,
            Err(e) if e.kind() == ErrorKind::Interrupted => {}
            Err(e) => return Err(e),
        }
    }
    Err(io::Error::from(ErrorKind::TimedOut))
}

// The room for the list, which has to be shorter.
fn room() -> [u8; 131072]
    ensures { 131072 ≡ length result }
{
    [0; 131072]
}

fn main(rt: HostRuntime) -> io::Result<()> {
    let mut list = room();
    let n = read_full(&mut rt.stdin(), &mut list)?;
    if n < list.len() {
        print_report(&rt, &list[..n])
    } else {
        println!(rt; "the list is too long: it differs")
    }
}
