// The values of a cell, and the masks of its candidates by the size (in the Rust: CellDomain and the masks of QueueSolverState).
// Inside the engine a value is its own candidate bit: digit d is bit d, and the four blacks are bits 8 to 11 at every size. So it is a number: an enum would
// become its number again at each mask and each place of the state.
#![tactic(auto)]

ghost use Rattle.std.specs.Prelude.{◌≡◌, ◌+◌, ◌*◌, ◌/◌, ◌%◌, ◌<◌};
ghost use Rattle.std.specs.Iterator.{at_most};
ghost use Rattle.rules.specs.Grid.{digits};
ghost use Rattle.rules.specs.Check.{named};
ghost use Rattle.table.specs.Table.{every_value, mask_of};
ghost use Rattle.value.specs.Walk.{LowestFirst};

use grid_size::GridSize;

#[derive(Clone, Copy)]
pub struct Value {
    pub code: usize,
}

impl Value {
    // The byte of a black cell.
    pub const BLACK: u8 = 255;

    // The blacks of a cell's row, left and right, and of its column, upper and lower.
    pub const BLACK1_ROW: usize = 8;

    pub const BLACK2_ROW: usize = 9;

    pub const BLACK1_COL: usize = 10;

    pub const BLACK2_COL: usize = 11;

    // Their masks, and that of the digits of size 9, which are bits 1 to 7.
    pub const ROW_BLACKS: u16 = 768;

    pub const COL_BLACKS: u16 = 3072;

    pub const DIGITS: u16 = 254;

    // What the row half, the column half and the whole cell have at size 9; at a smaller size no cell has the other digits.
    pub const ROW_HALF: u16 = Value::DIGITS + Value::ROW_BLACKS;

    pub const COL_HALF: u16 = Value::DIGITS + Value::COL_BLACKS;

    pub const EVERY: u16 = Value::ROW_HALF + Value::COL_BLACKS;

    // A mark may name it at a size: a digit, or a black.
    pub fn is_named(self, size: GridSize) -> bool
        ensures { result ≡ named size.n self.code }
    {
        let v = self.code;
        (1..=size.n - 2).contains(&v) || (Value::BLACK1_ROW..=Value::BLACK2_COL).contains(&v)
    }

    // The digits.
    pub fn all_digits(size: GridSize) -> u16
        ensures { result ≡ mask_of (digits size.n) }
    {
        (1u16 << (size.n - 1)) - 2
    }

    // Every candidate of a cell.
    pub fn full_cell(size: GridSize) -> u16
        ensures { result ≡ mask_of (every_value size.n) }
    {
        Value::all_digits(size) + Value::ROW_BLACKS + Value::COL_BLACKS
    }
}

// A value in the cell of a row and a column.
#[derive(Clone, Copy, Debug, PartialEq, Eq)]
pub struct Candidate {
    pub row: usize,
    pub column: usize,
    pub value: usize,
}

impl Candidate {
    // A value in the cell at a place.
    pub fn at(cell: usize, value: usize) -> Candidate
        ensures { result ≡ record { row = cell / 9; column = cell % 9; value = value } }
    {
        Candidate {
            row: cell / 9,
            column: cell % 9,
            value,
        }
    }

    // The place of its cell.
    pub fn cell(self) -> usize
        requires { (self.row < 9) × (self.column < 9) }
        ensures { result ≡ self.row * 9 + self.column }
    {
        self.row * 9 + self.column
    }
}

// The numbers of the bits of a mask, the lowest first.
#[derive(Clone, Debug, Drop)]
pub struct Bits {
    pub rest: u16,
}

impl Iterator for Bits {
    type Item = usize;

    ghost next_gives = { LowestFirst };

    ghost remaining = { λ s. at_most s.rest };

    fn next(&mut self) -> Option<usize> {
        if self.rest == 0 {
            return None;
        }
        let v = self.rest.trailing_zeros();
        self.rest -= 1 << v;
        // The library has no From from 32 bits to a place.
        Some(v as usize)
    }
}
