// The solver's table and grid, written for the caller row by row: n * n masks of candidates, and n * n cells (in the Rust: solved_cells).
// Called once for each call of the library, for at most 81 entries: its time does not matter.
// What is written comes beside the size: of a struct that holds a `&mut` each contract would have to say as well that it is still the caller's.
#![tactic(auto)]

ghost use Rattle.std.specs.Prelude.{◌≡◌, ℕ, ◌+◌, ◌*◌, ◌<◌, length, get_or, slice_index_or};
ghost use Rattle.table.specs.Reading.{read_off};
ghost use Rattle.queue_state.specs.Slab.{table_in};
ghost use Rattle.written.specs.Published.{mask_at, cell_byte, PublishedTable};

use state_view::StateView;
use value::Value;

// The mask of a cell as it is written: the digits keep their bits, the blacks move behind them. That the state's number has 16 bits is promised here, where it
// is read: of a slice in a struct no type says it to the caller.
#[tactic(auto, using(crate::proofs::MaskLaws::mask_room, crate::proofs::MaskLaws::mask_is))]
fn read_mask(view: StateView, r: usize, c: usize) -> u16
    requires { (r < view.n) × (c < view.n) }
    ensures is { result ≡ mask_at view.entry.n view.entry.st.now r c }
    ensures small { get_or view.entry.st.now (r * 9 + c) 0 < 65536 }
{
    let m = view.candidates(r * 9 + c);
    m % 256 + (m / 256 << (view.n - 1))
}

// The lowest digit that a cell may have, or black.
#[tactic(auto, using(crate::proofs::CellLaws::read_black, crate::proofs::CellLaws::read_digit))]
fn read_cell(view: StateView, r: usize, c: usize) -> u8
    requires { (r < view.n) × (c < view.n) }
    ensures { result ≡ cell_byte view.entry.n view.entry.st.now r c }
{
    let digits = view.candidates(r * 9 + c) & Value::DIGITS;
    if digits == 0 {
        Value::BLACK
    } else {
        // Proved to fit: the library has no From into fewer bits.
        digits.trailing_zeros() as u8
    }
}

// Writes what `entry` gives for each cell of row r.
fn write_row<T: Copy, F: Fn(usize, usize) -> T>(row: &mut [T], r: usize, entry: &F)
    requires { (c : ℕ) → c < length row.old → F.pre entry.now r c }
    ensures { (c : ℕ) (d : T) → c < length row.old → F.post entry.now r c (slice_index_or row.new c d) }
{
    for (c, to) in row.iter_mut().enumerate() {
        *to = entry(r, c);
    }
}

// The same of all n rows.
fn write_rows<T: Copy, F: Fn(usize, usize) -> T>(table: &mut [T], n: usize, entry: F)
    requires entries { (r c : ℕ) → r < n → c < n → F.pre entry r c }
    requires size { length table.old ≡ n * n }
    ensures { (r c : ℕ) (d : T) → r < n → c < n → F.post entry r c (slice_index_or table.new (r * n + c) d) }
{
    // By number, which the entries are asked by.
    for r in 0..n {
        write_row(&mut table[r * n..r * n + n], r, &entry);
    }
}

pub fn write_candidates(view: StateView, table: &mut [u16])
    requires { length table.old ≡ view.n * view.n }
    ensures { PublishedTable view.entry.n view.entry.st.now table.new }
{
    write_rows(table, view.n, |r, c| read_mask(view, r, c));
}

pub fn write_grid(view: StateView, cells: &mut [u8])
    requires { length cells.old ≡ view.n * view.n }
    ensures { cells.new ≡ read_off view.entry.n (table_in view.entry.st.now) }
{
    write_rows(cells, view.n, |r, c| read_cell(view, r, c));
}
