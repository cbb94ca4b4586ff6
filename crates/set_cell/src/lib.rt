// Setting a cell to a value strikes what the rules of the puzzle then leave out (in the Rust: set_cell).
#![tactic(auto)]

ghost use Rattle.std.specs.Prelude.{◌+◌, ◌≤◌, ◌<◌};
ghost use Rattle.queue_state.specs.Slab.{Struck};
ghost use Rattle.set_cell.specs.Places.{At, InMask, MaskAsk, PlaceAsk};
ghost use Rattle.set_cell.specs.Setting.{SetHit, SetAsk, Others, Around, RestOfHalf};

use lane::Lane;
use queue_state::{Slab, clear_mask, clear_value};
use value::{Bits, Candidate, Value};

// Strikes v at the places of a mask, of which 511 has all nine: the line's own mask says who has it.
fn clear_places(st: &mut [u16], lane: Lane, places: u16, v: usize)
    requires { MaskAsk st.old places v }
    ensures { Struck st.old st.new (At lane (InMask places) v) }
{
    let rest = st[Slab::LINE_MASKS + lane.number * 16 + v] & places;
    for p in (Bits { rest }) {
        clear_value(st, lane.cell(p), v);
    }
}

// Strikes v at the other places of a line than i, if it is a value of the line's half.
fn clear_others(st: &mut [u16], lane: Lane, i: usize, v: usize)
    requires { PlaceAsk st.old i v }
    ensures { Struck st.old st.new (Others lane i v) }
{
    if lane.has(v) {
        clear_places(st, lane, 511 - (1u16 << i), v);
    }
}

// Strikes what a black at place i leaves out of a line: second blacks before it and first blacks behind it.
fn clear_around(st: &mut [u16], lane: Lane, i: usize)
    requires { PlaceAsk st.old i (lane.first + 1) }
    ensures { Struck st.old st.new (Around lane i) }
{
    clear_places(st, lane, (1u16 << i) - 1, lane.first + 1);
    clear_places(st, lane, 512 - (1u16 << (i + 1)), lane.first);
}

// The other values of the half of v; of a digit, of both halves.
fn rest_of_half(v: usize) -> u16
    requires { (1 ≤ v) × (v < 12) }
    ensures { RestOfHalf v result }
{
    match v {
        ..Value::BLACK1_ROW => Value::EVERY - (1u16 << v),
        ..Value::BLACK1_COL => Value::ROW_HALF - (1u16 << v),
        _ => Value::COL_HALF - (1u16 << v),
    }
}

// Sets the cell of a candidate to its value.
pub fn set_cell(st: &mut [u16], n: usize, x: Candidate)
    requires { SetAsk n st.old x.row x.column x.value }
    ensures { Struck st.old st.new (SetHit x.row x.column x.value) }
{
    let row = Lane::row(n, x.row);
    let column = Lane::column(n, x.column);
    clear_others(st, row, x.column, x.value);
    clear_others(st, column, x.row, x.value);
    clear_mask(st, x.cell(), rest_of_half(x.value));
    if Value::BLACK1_ROW <= x.value {
        clear_around(st, row, x.column);
        clear_around(st, column, x.row);
    }
}
