// The state of the queue solver in one slice of numbers, and its primitives (in the Rust: QueueSolverState and clear_mask).
// What stands where is said twice, by the same names: here for the code, in specs/Layout.antt for the definitions.
// A cell has the place row * 9 + column, a line the number row or 9 + column, at every size: by these the slice has them, so they are numbers.
// The project lends the state as a slice, with the size beside it, and copies no large struct. What a function that changes it asks of it stands in a contract
// and not in a type: a type would ask it at all times, and between two steps it does not hold. Where it is only read, crates/state_view has the type.
#![tactic(auto)]

ghost use Rattle.std.specs.Prelude.{◌≡◌, ◌-◌, ◌<◌, get_or, set};
ghost use Rattle.queue_state.specs.Slab.{Sized, Struck, One, Masked, unmasked, UnmaskAsk, StrikeAsk, CounterAsk};

use value::Bits;

#[derive(Clone, Copy)]
pub struct Slab;

impl Slab {
    // The candidates of the 81 cells stand first, then the queue of strikes, then how many it has. The line masks say the candidates again, line by line, so
    // that propagation goes over no line to find who has a value.
    pub const QUEUE: usize = 81;

    pub const QUEUE_ROOM: usize = 81 * 11;

    pub const TAIL: usize = Slab::QUEUE + Slab::QUEUE_ROOM;
    // Which places of a line have a value, as a mask: line * 16 + value.
    pub const LINE_MASKS: usize = Slab::TAIL + 1;
    // How many candidates a cell's row half and its column half have.
    pub const ROW_HALF: usize = Slab::LINE_MASKS + 18 * 16;

    pub const COL_HALF: usize = Slab::ROW_HALF + 81;
    // How many places a value has in a line: line * 16 + value.
    pub const PLACES: usize = Slab::COL_HALF + 81;
    // How many row blacks and column blacks a cell has.
    pub const ROW_BLACKS: usize = Slab::PLACES + 18 * 16;

    pub const COL_BLACKS: usize = Slab::ROW_BLACKS + 81;
    // How many live arrangements a line has, and which: line * PER_LINE + place in the list.
    pub const LENGTHS: usize = Slab::COL_BLACKS + 81;

    pub const LIVE: usize = Slab::LENGTHS + 18;

    pub const PER_LINE: usize = 78;
    // How many live arrangements of a line have a value at a place: (line * 9 + place) * 16 + value.
    pub const SUPPORT: usize = Slab::LIVE + 18 * Slab::PER_LINE;

    pub const SIZE: usize = Slab::SUPPORT + 18 * 9 * 16;
}

// A place leaves the line's mask of a value.
fn unmask(st: &mut [u16], line: usize, p: usize, v: usize)
    requires { UnmaskAsk line p v st.old }
    ensures { st.new ≡ unmasked st.old line p v }
{
    let at = Slab::LINE_MASKS + line * 16 + v;
    st[at] = st[at] - (1u16 << p);
}

// Strikes a candidate that the cell has: it leaves the table and the masks of its lines, and enters the queue.
fn strike(st: &mut [u16], cell: usize, v: usize)
    requires { StrikeAsk st.old cell v }
    ensures { Struck st.old st.new (One cell v) }
{
    let t = usize::from(st[Slab::TAIL]);
    st[cell] = st[cell] - (1u16 << v);
    // By `as`, as wherever the state gets a number: proved to fit, and the library has no From into fewer bits.
    st[Slab::QUEUE + t] = (cell * 16 + v) as u16;
    st[Slab::TAIL] = (t + 1) as u16;
    unmask(st, cell / 9, cell % 9, v);
    unmask(st, 9 + cell % 9, cell / 9, v);
}

// Strikes a candidate if the cell has it.
pub fn clear_value(st: &mut [u16], cell: usize, v: usize)
    requires { Sized st.old × (cell < 81) × (v < 16) }
    ensures { Struck st.old st.new (One cell v) }
{
    if (st[cell] >> v) % 2 == 1 {
        strike(st, cell, v);
    }
}

// Strikes the candidates of a mask that the cell has, the lowest first.
pub fn clear_mask(st: &mut [u16], cell: usize, mask: u16)
    requires { Sized st.old × (cell < 81) }
    ensures { Struck st.old st.new (Masked cell mask) }
{
    let rest = st[cell] & mask;
    for v in (Bits { rest }) {
        strike(st, cell, v);
    }
}

// A counter falls by one; gives what is left.
pub fn lower(st: &mut [u16], p: usize) -> u16
    requires { CounterAsk st.old p }
    ensures { (result ≡ get_or st.old p 0 - 1) × (st.new ≡ set st.old p (get_or st.old p 0 - 1)) }
{
    let left = st[p] - 1;
    st[p] = left;
    left
}
