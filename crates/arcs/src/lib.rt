// The live arrangements of the lines, and arc consistency (in the Rust: update_arc).
#![tactic(auto)]

ghost use Rattle.std.specs.Prelude.{◌≡◌, ◌+◌, ◌*◌, ◌≤◌, ◌<◌, length};
ghost use Rattle.queue_state.specs.Layout.{per_line, slab_size};
ghost use Rattle.queue_state.specs.Slab.{Sized, Struck, One};
ghost use Rattle.words.specs.Word.{after, word_of, Known};
ghost use Rattle.arcs.specs.Kill.{parts, inners, InnerAsk, KillAsk};
ghost use Rattle.arcs.specs.Arc.{live, ArcAsk, ArcDone};
ghost use Rattle.arcs.specs.Have.{Have, HavingAsk, Tested, test_of};
ghost use Rattle.arcs.specs.Sweep.{RemoveAsk, Removed, SweepAsk, Swept, LineAsk, LineDone};
ghost use Rattle.arcs.specs.Sunk.{Sunk, single, masked, DropAsk, DigitsAsk};

use arrangements::{ArrangedLane, Arrangement, Arrangements};
use lane::Lane;
use queue_state::Slab;
use value::{Bits, Candidate, Value};

// A candidate without support is struck. Never inline, else what a strike needs is worked out for each place of an arrangement, though few lose their support.
#[inline(never)]
fn strike_unsupported(st: &mut [u16], cell: usize, v: usize)
    requires { Sized st.old × (cell < 81) × (v < 16) }
    ensures { Struck st.old st.new (One cell v) }
{
    queue_state::clear_value(st, cell, v);
}

// A support falls; without support the candidate is struck.
fn drop_support(st: &mut [u16], lane: Lane, p: usize, v: usize)
    requires { DropAsk lane p v st.old }
    ensures { Sunk (single (lane.number * 9 + p) v) st.old st.new }
{
    if queue_state::lower(st, Slab::SUPPORT + (lane.number * 9 + p) * 16 + v) == 0 {
        strike_unsupported(st, lane.cell(p), v);
    }
}

// The supports of a set of digits fall at one place. (listing's `add_digits` has another step: with a closure for it the loop would be longer than twice.)
fn drop_digits(st: &mut [u16], lane: Lane, p: usize, set: u16)
    requires { DigitsAsk lane p set st.old }
    ensures { Sunk (masked (lane.number * 9 + p) set) st.old st.new }
{
    for v in (Bits { rest: set }) {
        drop_support(st, lane, p, v);
    }
}

// The next place of a line of n, wrapping.
fn next_place(n: usize, p: usize) -> usize
    requires { p < n }
    ensures { result ≡ after n p }
{
    if p + 1 == n { 0 } else { p + 1 }
}

// The supports of a word fall at its inner places.
fn drop_inner(st: &mut [u16], a: Arrangement)
    requires { InnerAsk a.lane a.word st.old }
    ensures { Sunk (inners a.lane.number a.word) st.old st.new }
{
    let lane = a.lane;
    let set = words::set_of(a.word);
    let to = words::to_of(a.word);
    let mut p = next_place(lane.len, words::from_of(a.word));
    // A while, from the head on, which may go around the line's end: strikes are in the Rust's order, and the bits of the inner places are in another.
    while p != to {
        drop_digits(st, lane, p, set);
        p = next_place(lane.len, p);
    }
}

// An arrangement leaves its line: its supports fall from end to end.
fn kill(st: &mut [u16], a: Arrangement)
    requires { KillAsk a.lane a.word st.old }
    ensures { Sunk (parts a.lane.number a.word) st.old st.new }
{
    let first = a.lane.first;
    drop_support(
        st,
        a.lane,
        words::from_of(a.word),
        words::head_of(a.word, first),
    );
    drop_inner(st, a);
    drop_support(
        st,
        a.lane,
        words::to_of(a.word),
        words::last_of(a.word, first),
    );
}

// Arrangement i of the list leaves, and w is its word; the last one takes its place, and len are left.
fn remove(st: &mut [u16], lane: Lane, i: usize, len: usize, w: u32)
    requires { RemoveAsk lane i len w st.old }
    ensures { Removed lane.len lane.number i len st.old st.new }
{
    live_list::remove(st, Slab::LIVE + lane.number * Slab::PER_LINE, i, len);
    kill(st, Arrangement { lane, word: w });
}

// The word of arrangement i of a line's list.
fn word_at(st: &[u16], arranged: ArrangedLane, i: usize) -> u32
    requires { (i < per_line) × (length st.now ≡ slab_size) × Known arranged.lane.len (live st.now arranged.lane.number i) }
    ensures { result ≡ word_of arranged.entry.lane.len (live st.now arranged.entry.lane.number i) }
{
    arranged.word(usize::from(st[Slab::LIVE + arranged.lane.number * Slab::PER_LINE + i]))
}

// The bits of a digit and of an inner place.
fn digit_test(v: usize, p: usize) -> u32
    requires { (v < 8) × (p < 9) }
    ensures { result ≡ test_of v p }
{
    (1u32 << v) | (256u32 << p)
}

// An arrangement outlives the strike of a digit.
fn keeps(w: u32, test: u32, have: u16, cands: u16) -> bool
    ensures { Tested w test have cands result }
{
    w & test != test || words::inner_of(w) & have != 0 && cands & words::set_of(w) != 0
}

// The places of a line that have the value v, as a mask.
fn having(st: &[u16], lane: Lane, v: usize) -> u16
    requires { HavingAsk lane v st.now }
    ensures { Have lane v st.now lane.len result }
{
    st[Slab::LINE_MASKS + lane.number * 16 + v]
}

// The sweep for a digit that is struck at place p: the dead arrangements of the line leave. Gives how many are left. The line, the place and the value go one
// by one here and below: as one value they take 0.4 % more instructions (tried), and nothing is to get slower.
// Not one with sweep_black: a trait or a closure for the two tests is longer than the loop twice.
fn sweep_digit(st: &mut [u16], arranged: ArrangedLane, p: usize, v: usize) -> usize
    requires { SweepAsk arranged.lane p v st.old × (v < 8) }
    ensures { Swept arranged.entry.lane.len arranged.entry.lane.number p v st.old st.new result }
{
    let lane = arranged.lane;
    let cell = lane.cell(p);
    let test = digit_test(v, p);
    let mut i = 0;
    let mut len = usize::from(st[Slab::LENGTHS + lane.number]);
    // A while here and in sweep_black: where one leaves, len falls and i stays.
    while i < len {
        let w = word_at(st, arranged, i);
        if keeps(w, test, having(st, lane, v), st[cell]) {
            i += 1;
        } else {
            len -= 1;
            remove(st, lane, i, len, w);
        }
    }
    len
}

// The sweep for a black that is struck at place p: the arrangements that have it there leave. Gives how many are left.
fn sweep_black(st: &mut [u16], arranged: ArrangedLane, p: usize, v: usize) -> usize
    requires { SweepAsk arranged.lane p v st.old × (8 ≤ v) }
    ensures { Swept arranged.entry.lane.len arranged.entry.lane.number p v st.old st.new result }
{
    let lane = arranged.lane;
    let shift = words::black_shift(lane.first, v);
    let mut i = 0;
    let mut len = usize::from(st[Slab::LENGTHS + lane.number]);
    while i < len {
        let w = word_at(st, arranged, i);
        // The library has no From from 32 bits to a place.
        if ((w >> shift) % 16) as usize == p {
            len -= 1;
            remove(st, lane, i, len, w);
        } else {
            i += 1;
        }
    }
    len
}

// The sweep for the value v that is struck at place p. Gives how many arrangements are left.
fn sweep(st: &mut [u16], arranged: ArrangedLane, p: usize, v: usize) -> usize
    requires { SweepAsk arranged.lane p v st.old }
    ensures { Swept arranged.entry.lane.len arranged.entry.lane.number p v st.old st.new result }
{
    if v < Value::BLACK1_ROW {
        sweep_digit(st, arranged, p, v)
    } else {
        sweep_black(st, arranged, p, v)
    }
}

// The value v is struck at place p of a line: its dead arrangements leave.
fn update_line(st: &mut [u16], arranged: ArrangedLane, p: usize, v: usize)
    requires { SweepAsk arranged.lane p v st.old }
    ensures { LineDone arranged.entry.lane.len arranged.entry.lane.number p v st.old st.new }
{
    let len = sweep(st, arranged, p, v);
    st[Slab::LENGTHS + arranged.lane.number] = len as u16;
}

// The same, if any of them has it there: a value of the other half has no support in the line. Inline, else LLVM takes the sweep in here: 8 % more work.
#[inline(always)]
fn update_supported(st: &mut [u16], arranged: ArrangedLane, p: usize, v: usize)
    requires { LineAsk arranged.lane p v st.old }
    ensures { LineDone arranged.entry.lane.len arranged.entry.lane.number p v st.old st.new }
{
    if st[Slab::SUPPORT + (arranged.lane.number * 9 + p) * 16 + v] != 0 {
        update_line(st, arranged, p, v);
    }
}

// A candidate is struck: arrangements of its lines die, and what loses its last support is struck.
pub fn update_arc(st: &mut [u16], arrangements: Arrangements, x: Candidate)
    requires { ArcAsk arrangements.size.n st.old x.row x.column x.value }
    ensures { ArcDone arrangements.entry.size.n st.old st.new x.row x.column x.value }
{
    update_supported(st, arrangements.row(x.row), x.column, x.value);
    update_supported(st, arrangements.column(x.column), x.row, x.value);
}
