// The lines of a grid of cells, read where they lie: a line by its first cell and its stride, so that rows and columns are one case.
#![tactic(auto)]

ghost use Rattle.std.specs.Prelude.{◌≡◌, ℕ, ◌+◌, ◌*◌, ◌≤◌, ◌<◌, length, get_or};

use grid_size::GridSize;

// A line of at most nine cells: its first cell, the way from cell to cell, and how many it has. Its cells are asked for by their places: of the walks over
// them two begin or end within, and an iterator would be a second way beside it.
#[derive(Clone, Copy)]
pub struct Line<'a> {
    pub cells: &'a [u8],
    pub start: usize,
    pub stride: usize,
    pub len: usize,
    pub ghost short: { len ≤ 9 },
    pub ghost inside: { (j : ℕ) → j < len → start + j * stride < length cells.now },
}

impl<'a> Line<'a> {
    // The cell at a place.
    pub fn byte(self, j: usize) -> u8
        requires { j < self.len }
        ensures { result ≡ get_or self.entry.cells.now (self.entry.start + j * self.entry.stride) 0 }
    {
        self.cells[self.start + j * self.stride]
    }
}

// As many lines as each has cells, the first cells of which are a step apart.
#[derive(Clone, Copy)]
pub struct Lines<'a> {
    pub cells: &'a [u8],
    pub step: usize,
    pub stride: usize,
    pub count: usize,
    pub ghost short: { count ≤ 9 },
    pub ghost inside: { (i j : ℕ) → i < count → j < count → i * step + j * stride < length cells.now },
}

// The cells come beside the size: a type of both would, in marking, ask that its size is that of the puzzle.
// Rows and columns each have numbers of their own: one function for both would take them all, or which of the two it is.
impl<'a> Lines<'a> {
    // The rows of a grid of n * n cells.
    pub fn rows(cells: &'a [u8], size: GridSize) -> Lines<'a>
        requires { length cells.now ≡ size.n * size.n }
        ensures { (result.cells.now ≡ cells.now) × (result.step ≡ size.n) × (result.stride ≡ 1) × (result.count ≡ size.n) }
    {
        Lines {
            cells,
            step: size.n,
            stride: 1,
            count: size.n,
        }
    }

    // Their columns.
    pub fn columns(cells: &'a [u8], size: GridSize) -> Lines<'a>
        requires { length cells.now ≡ size.n * size.n }
        ensures { (result.cells.now ≡ cells.now) × (result.step ≡ 1) × (result.stride ≡ size.n) × (result.count ≡ size.n) }
    {
        Lines {
            cells,
            step: 1,
            stride: size.n,
            count: size.n,
        }
    }

    // Line i.
    pub fn line(self, i: usize) -> Line<'a>
        requires { i < self.count }
        ensures { (result.cells.now ≡ self.entry.cells.now) × (result.start ≡ i * self.entry.step)
            × (result.stride ≡ self.entry.stride) × (result.len ≡ self.entry.count) }
    {
        Line {
            cells: self.cells,
            start: i * self.step,
            stride: self.stride,
            len: self.count,
        }
    }
}
