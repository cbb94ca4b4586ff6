// Replays the list of answers that the oracle writes (oracle/README.md, "The list of answers"): a record is read, its call is run, and the answer
// and every byte of the buffers are compared with the recorded ones. What cannot be read is a difference.
#![tactic(auto)]

mod calls;
mod solver_calls;

ghost use Rattle.std.specs.Prelude.{◌≡◌, ◌+◌, ◌-◌, ◌<◌, ◌^◌, not, length, MatchOption};
ghost use Rattle.std.specs.Iterator.{at_most};
ghost use Rattle.record_fields.specs.Calls.{tag_of};
ghost use Rattle.replay_records.specs.Replay.{FindsAs, Replayed, as_number, kind_of, RecordsTallied, KindsTallied, FirstDifference};
ghost use Rattle.replay_records.specs.Walk.{NextRecord};

use arrayvec::ArrayVec;
use calls::{line_check_agrees, mark_sheet_agrees, target_sums_agree};
use record_fields::{Call, field_start, readable_call};
use solver_calls::{candidates_agree, count_agrees, solve_agrees};

// What a call may write to. A record whose slices do not fit is a difference.
type Buffer = ArrayVec<u8, 256>;

// What replaying the first record of a list found: its call, how many bytes it takes, and whether the engine answers as recorded. Where no record
// can be read, there is no call, and the length is that of the whole list.
#[derive(Clone, Copy)]
pub struct Outcome {
    pub call: Option<Call>,
    pub length: usize,
    pub agrees: bool,
}

// How many records were replayed, and in how many of them the engine answers otherwise.
#[derive(Clone, Copy, Default)]
pub struct Tally {
    pub replayed: usize,
    pub differ: usize,
}

impl Tally {
    // One more record.
    fn add(&mut self, agrees: bool)
        requires { (self.old.replayed + 1 < 2 ^ 64) × (self.old.differ + 1 < 2 ^ 64) }
        ensures { (self.new.replayed ≡ self.old.replayed + 1) × (self.new.differ ≡ self.old.differ + as_number (not agrees)) }
    {
        self.replayed += 1;
        self.differ += usize::from(!agrees);
    }
}

// Whether the engine answers as the record of a call says.
#[tactic(auto, unfolding(crate::specs::Replay::FindsAs))]
fn agrees(call: Call, list: &[u8]) -> bool
    ensures { FindsAs (tag_of call) result list.now }
{
    match call {
        Call::TargetSums => target_sums_agree(list),
        Call::MarkSheet => mark_sheet_agrees(list),
        Call::Candidates => candidates_agree(list),
        Call::Count => count_agrees(list),
        Call::Solve => solve_agrees(list),
        Call::LineCheck => line_check_agrees(list),
    }
}

// Replays the first record of a list.
pub fn replay(list: &[u8]) -> Outcome
    ensures { Replayed list.now result }
{
    match readable_call(list) {
        Some(call) => Outcome {
            call: Some(call),
            length: field_start(list, call.field_count()),
            agrees: agrees(call, list),
        },
        None => Outcome {
            call: None,
            length: list.len(),
            agrees: false,
        },
    }
}

// The records of a list from a place on, one after the other: where each begins, and what replaying it found.
#[derive(Drop)]
struct Records<'a> {
    list: &'a [u8],
    at: usize,
}

impl<'a> Iterator for Records<'a> {
    type Item = (usize, Outcome);

    ghost next_gives = { NextRecord };

    ghost remaining = { λ s. at_most (length s.list.now - s.at) };

    fn next(&mut self) -> Option<(usize, Outcome)> {
        let at = self.at;
        if self.list.len() <= at {
            return None;
        }
        let outcome = replay(&self.list[at..]);
        self.at += outcome.length;
        Some((at, outcome))
    }
}

// How many records of a list are wanted, and in how many of these the engine answers otherwise. A record is asked for by its call, and what cannot be
// read by none.
pub fn replay_wanted<F: Fn(Option<Call>) -> bool>(list: &[u8], wanted: F) -> Tally
    requires { F.IsAlwaysCallable wanted }
    ensures { RecordsTallied (F.post wanted) result.replayed result.differ list.now }
{
    let mut tally = Tally::default();
    for (_, outcome) in (Records { list, at: 0 }) {
        if wanted(outcome.call) {
            tally.add(outcome.agrees);
        }
    }
    tally
}

// The kind that a call names, or 0 where there is none.
fn kind_number(call: Option<Call>) -> usize
    ensures { result ≡ kind_of call }
{
    match call {
        Some(call) => usize::from(call.tag()),
        None => 0,
    }
}

// How many records of a list have a kind from first to last, and in how many of these the engine answers otherwise. The kind is the tag, or 0 where none
// can be read.
pub fn replay_list(list: &[u8], first: usize, last: usize) -> Tally
    ensures { KindsTallied first last result.replayed result.differ list.now }
{
    replay_wanted(list, |call| {
        let kind = kind_number(call);
        first <= kind && kind <= last
    })
}

// Where the first record of a list begins in which the engine answers otherwise.
pub fn first_difference(list: &[u8]) -> Option<usize>
    ensures { MatchOption result (FirstDifference (length list.now) list.now) (λ at. (at < length list.now) × FirstDifference at list.now) }
{
    for (at, outcome) in (Records { list, at: 0 }) {
        if !outcome.agrees {
            return Some(at);
        }
    }
    None
}
