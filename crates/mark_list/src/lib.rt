// Marks: read from bytes, unpacked, and checked (they stand for take_branch and reject_branch of the Rust).
#![tactic(auto)]

ghost use Rattle.std.specs.Prelude.{◌≡◌, ◌+◌, ◌*◌, ◌≤◌, ◌<◌, length};
ghost use Rattle.rules.specs.Mark.{marks_of};
ghost use Rattle.rules.specs.Check.{checked, check_mark};
ghost use Rattle.rules.specs.CheckParts.{mark_checks, list_checks};
ghost use Rattle.mark_list.specs.Unpacked.{unpacked, word_at};

use grid_size::GridSize;
use refusal::Refusal;
use units::Unit;
use value::{Candidate, Value};

// What a mark says of a candidate: that it is rejected, or else taken. No enum of the two: the checks ask of the candidate whichever it is.
#[derive(Clone, Copy, Debug, PartialEq, Eq)]
pub struct Mark {
    pub rejects: bool,
    pub candidate: Candidate,
}

impl Mark {
    // The fields, from the most significant bit on: kind 1, row 4, column 4, value 4, spare 3.
    pub fn unpack(word: u16) -> Mark
        ensures { result ≡ unpacked word }
    {
        let rejects = (word >> 15) % 2 == 1;
        let row = usize::from((word >> 11) % 16);
        let column = usize::from((word >> 7) % 16);
        let value = usize::from((word >> 3) % 16);
        Mark {
            rejects,
            candidate: Candidate { row, column, value },
        }
    }
}

// How many marks the bytes hold; a byte left over is half a mark, which is refused.
pub fn mark_count(bytes: usize) -> usize
    ensures { (bytes ≤ 2 * result) × (2 * result ≤ bytes + 1) }
{
    bytes.div_ceil(2)
}

// Mark i of the bytes.
pub fn mark_at(bytes: &[u8], i: usize) -> u16
    requires { 2 * i < length bytes.now }
    ensures { result ≡ word_at bytes.now i }
{
    let at = 2 * i;
    u16::from_be_bytes([bytes[at], bytes.get(at + 1).copied().unwrap_or(7)])
}

// The checks of a mark.
fn check_mark(size: GridSize, word: u16) -> Result<(), Refusal>
    ensures { result ≡ checked (check_mark size.n word) }
{
    let x = Mark::unpack(word).candidate;
    if word % 8 != 0 {
        return Err(Refusal::MarkSpare);
    }
    if size.n <= x.row {
        return Err(Refusal::MarkPlace);
    }
    if size.n <= x.column {
        return Err(Refusal::MarkPlace);
    }
    let v = Value { code: x.value };
    if v.is_named(size) {
        Ok(())
    } else {
        Err(Refusal::MarkValue)
    }
}

// The checks of the marks, mark by mark.
fn check_marks(size: GridSize, bytes: &[u8]) -> Result<(), Refusal>
    ensures { result ≡ checked (mark_checks size.n (marks_of bytes.now)) }
{
    for i in 0..mark_count(bytes.len()) {
        check_mark(size, mark_at(bytes, i))?;
    }
    Ok(())
}

// The checks of a list of marks in a unit: its length is asked before any mark.
pub fn check_list(unit: Unit, size: GridSize, bytes: &[u8]) -> Result<(), Refusal>
    ensures { result ≡ checked (list_checks unit size.n (marks_of bytes.now)) }
{
    if !unit.takes_list(mark_count(bytes.len())) {
        return Err(Refusal::ListLimit);
    }
    check_marks(size, bytes)
}
