// The text of an answer of `sheet`, appended to what a buffer holds (crates/text_buffer). Nothing is written by `write!`: `fmt::Write` promises the bytes
// only where it succeeds, and never that it does.
#![tactic(auto)]

ghost use Rattle.std.specs.Prelude.{◌≡◌, ◌+◌, ◌-◌, ◌*◌, ◌≤◌, ◌++◌, map, length, decimal};
ghost use Rattle.arrayvec.specs.ArrayVec.{array_vec_len};
ghost use Rattle.text_rules.specs.Text.{refused_word, cell_text, grid_text};
ghost use Rattle.text_answer.specs.Shown.{Shown, led, CellsAsk, RowAsk, GridAsk, SolvedAsk};

use arrayvec::ArrayVec;
use text_buffer::{write_number, write_text};

// The text of a refusal.
pub fn write_refused<const N: usize>(k: u8, out: &mut ArrayVec<u8, N>)
    requires { array_vec_len out.old + 11 ≤ N }
    ensures { out.new.items ≡ out.old.items ++ (refused_word ++ decimal k) }
{
    write_text(b"refused ", out);
    write_number(k, out);
}

// A black cell or a digit.
#[tactic(auto, unfolding(text_rules::specs::Text::cell_text))]
fn cell_byte(c: u8) -> u8
    requires { Shown c }
    ensures { result ≡ cell_text c }
{
    if c == 255 { b'#' } else { b'0' + c }
}

// The cells of a row.
fn write_cells<const N: usize>(row: &[u8], out: &mut ArrayVec<u8, N>)
    requires { CellsAsk row.now (N - array_vec_len out.old) }
    ensures { out.new.items ≡ out.old.items ++ map cell_text row.now }
{
    for c in row {
        out.push(cell_byte(*c));
    }
}

// Row r, behind a separator if it is not the first.
#[tactic(auto, unfolding(crate::specs::Shown::led))]
fn write_row<const N: usize>(r: usize, row: &[u8], out: &mut ArrayVec<u8, N>)
    requires { RowAsk row.now (N - array_vec_len out.old) }
    ensures { out.new.items ≡ out.old.items ++ led r (map cell_text row.now) }
{
    if r > 0 {
        out.push(b'/');
    }
    write_cells(row, out);
}

// The cells of a grid, row by row: as many as its size says, which is at most 9.
#[derive(Clone, Copy)]
pub struct Grid<'a> {
    pub n: usize,
    pub cells: &'a [u8],
    pub ghost few: { n ≤ 9 },
    pub ghost square: { length cells.now ≡ n * n },
}

// The rows of a grid.
fn write_grid<const N: usize>(grid: Grid, out: &mut ArrayVec<u8, N>)
    requires { GridAsk grid.cells.now (N - array_vec_len out.old) }
    ensures { out.new.items ≡ out.old.items ++ grid_text grid.entry.n grid.entry.cells.now }
{
    // By number: `chunks(n)` asks that n is not 0.
    for r in 0..grid.n {
        let start = r * grid.n;
        write_row(r, &grid.cells[start..start + grid.n], out);
    }
}

// A verdict with its grid.
pub fn write_solved<const N: usize>(verdict: &[u8], grid: Grid, out: &mut ArrayVec<u8, N>)
    requires { SolvedAsk (length verdict.now) grid.cells.now (N - array_vec_len out.old) }
    ensures { out.new.items ≡ out.old.items ++ (verdict.now ++ grid_text grid.entry.n grid.entry.cells.now) }
{
    write_text(verdict, out);
    write_grid(grid, out);
}
