// The handlers of a strike's counters: the halves of its cell, the places of its value in its lines, and the blacks of its cell (in the Rust:
// update_singleton, update_hidden_singles and update_black_consistency).
#![tactic(auto)]

ghost use Rattle.std.specs.Prelude.{◌≡◌, ◌+◌, ◌*◌, ◌<◌};
ghost use Rattle.lane.specs.Lanes.{lane_black, lane_value};
ghost use Rattle.queue_state.specs.Layout.{places_at};
ghost use Rattle.singles.specs.Handling.{HalfAsk, HalfDone, SingletonAsk, SingletonDone, FindAsk, PlaceFound, PlacesAsk, PlacesDone};
ghost use Rattle.singles.specs.Handling.{HiddenAsk, HiddenDone, BlacksAsk, BlacksDone, ConsistencyAsk, ConsistencyDone};

use lane::Lane;
use queue_state::{Slab, clear_mask, lower};
use set_cell::set_cell;
use value::{Bits, Candidate, Value};

// A strike of x: the counter of its cell's half of one of its lines falls, if x is of that half; a half with one candidate left is set to it.
fn update_half(st: &mut [u16], lane: Lane, x: Candidate, counters: usize, mask: u16)
    requires { HalfAsk lane.len st.old (lane_value lane.first x.value) (counters + (x.row * 9 + x.column)) (x.row * 9 + x.column) mask
        × (x.row < 9) × (x.column < 9) }
    ensures { HalfDone lane.len st.old st.new (lane_value lane.first x.value) (counters + (x.row * 9 + x.column)) (x.row * 9 + x.column) mask }
{
    let cell = x.cell();
    if lane.has(x.value) && lower(st, counters + cell) == 1 {
        let left = st[cell] & mask;
        if left.count_ones() == 1 {
            // The library has no From from 32 bits to a place.
            let value = left.trailing_zeros() as usize;
            set_cell(st, lane.len, Candidate { value, ..x });
        }
    }
}

// A strike of x: the counters of both halves of its cell. The size goes beside the candidate, here, below and in set_cell: one that had a size of its own would
// say the state's a second time, and each contract would ask that they agree.
pub fn update_singleton(st: &mut [u16], n: usize, x: Candidate)
    requires { SingletonAsk n st.old x.row x.column x.value }
    ensures { SingletonDone n st.old st.new x.row x.column x.value }
{
    let row = Lane::row(n, x.row);
    let column = Lane::column(n, x.column);
    update_half(st, row, x, Slab::ROW_HALF, Value::ROW_HALF);
    update_half(st, column, x, Slab::COL_HALF, Value::COL_HALF);
}

// The first place of a line that has the candidate v, by the line's mask.
fn find_place(st: &[u16], lane: Lane, v: usize) -> Option<usize>
    requires { FindAsk st.now lane.len v }
    ensures { PlaceFound st.now lane.len lane.start lane.stride v result }
{
    let rest = st[Slab::LINE_MASKS + lane.number * 16 + v] & ((1u16 << lane.len) - 1);
    let mut places = Bits { rest };
    places.next()
}

// The counter of a value's places in a line falls, if the line has the value; a value with one place left is set there.
fn update_places(st: &mut [u16], lane: Lane, v: usize)
    requires { PlacesAsk lane.len st.old (lane_value lane.first v) (places_at + lane.number * 16 + v) lane.start lane.stride v }
    ensures { PlacesDone lane.len st.old st.new (lane_value lane.first v) (places_at + lane.number * 16 + v) lane.start lane.stride v }
{
    if lane.has(v) && lower(st, Slab::PLACES + lane.number * 16 + v) == 1 {
        if let Some(place) = find_place(st, lane, v) {
            set_cell(st, lane.len, Candidate::at(lane.cell(place), v));
        }
    }
}

// The same strike: the counters of its value's places in both lines of its cell.
pub fn update_hidden_singles(st: &mut [u16], n: usize, x: Candidate)
    requires { HiddenAsk n st.old x.row x.column x.value }
    ensures { HiddenDone n st.old st.new x.row x.column x.value }
{
    update_places(st, Lane::row(n, x.row), x.value);
    update_places(st, Lane::column(n, x.column), x.value);
}

// The counter of a cell's blacks of one line falls, if x is one of them; where none is left, those of the other line are struck.
fn update_blacks(st: &mut [u16], lane: Lane, x: Candidate, counters: usize, mask: u16)
    requires { BlacksAsk lane.len st.old (lane_black lane.first x.value) (counters + (x.row * 9 + x.column)) (x.row * 9 + x.column) mask
        × (x.row < 9) × (x.column < 9) }
    ensures { BlacksDone lane.len st.old st.new (lane_black lane.first x.value) (counters + (x.row * 9 + x.column)) (x.row * 9 + x.column) mask }
{
    let cell = x.cell();
    if lane.has_black(x.value) && lower(st, counters + cell) == 0 {
        clear_mask(st, cell, mask);
    }
}

// The same strike: the counters of both kinds of blacks of its cell.
pub fn update_black_consistency(st: &mut [u16], n: usize, x: Candidate)
    requires { ConsistencyAsk n st.old x.row x.column x.value }
    ensures { ConsistencyDone n st.old st.new x.row x.column x.value }
{
    let row = Lane::row(n, x.row);
    let column = Lane::column(n, x.column);
    update_blacks(st, row, x, Slab::ROW_BLACKS, Value::COL_BLACKS);
    update_blacks(st, column, x, Slab::COL_BLACKS, Value::ROW_BLACKS);
}
