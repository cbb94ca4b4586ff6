// The state before any strike: every candidate of the size, and counters to match.
#![tactic(auto)]

ghost use Rattle.std.specs.Prelude.{ℕ, ◌≡◌, ◌+◌, ◌*◌, ◌≤◌, ◌<◌, length};
ghost use Rattle.fresh.specs.Fresh.{Blank, RowsFull, FillLineAsk, LineFull, MasksFull, Fresh};

use grid_size::GridSize;
use queue_state::Slab;
use value::Value;

// The cells of the grid get the mask full.
fn fill_cells(st: &mut [u16], size: GridSize, full: u16)
    requires { Blank st.old }
    ensures { RowsFull st.new size.n size.n full }
{
    let n = size.n;
    for r in 0..n {
        st[r * 9..r * 9 + n].fill(full);
    }
}

// The masks of a line: each value of the size has every place.
fn fill_line(st: &mut [u16], size: GridSize, line: usize)
    requires { FillLineAsk st.old line }
    ensures { LineFull st.old st.new size.n line }
{
    let at = Slab::LINE_MASKS + line * 16;
    let places = (1u16 << size.n) - 1;
    st[at + 1..at + (size.n - 1)].fill(places);
    st[at + Value::BLACK1_ROW..at + 12].fill(places);
}

// The masks of every row and every column.
fn fill_lines(st: &mut [u16], size: GridSize)
    requires { (i : ℕ) → i < 18 → FillLineAsk st.old i }
    ensures { MasksFull st.old st.new size.n size.n }
{
    for i in 0..size.n {
        fill_line(st, size, i);
        fill_line(st, size, 9 + i);
    }
}

pub fn fresh(st: &mut [u16], size: GridSize)
    requires { Blank st.old }
    ensures { Fresh size.n st.new }
{
    fill_cells(st, size, Value::full_cell(size));
    fill_lines(st, size);
    st[Slab::ROW_HALF..Slab::ROW_BLACKS].fill(size.n as u16);
    st[Slab::ROW_BLACKS..Slab::LENGTHS].fill(2);
}
