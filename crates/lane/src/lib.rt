// A line as the code walks it, so that rows and columns are one case.
#![tactic(auto)]

ghost use Rattle.std.specs.Prelude.{◌≡◌, ℕ, ◌+◌, ◌*◌, ◌<◌};
ghost use Rattle.rules.specs.Mark.{left_black, upper_black};
ghost use Rattle.table.specs.Lines.{cell_at, black_at};
ghost use Rattle.lane.specs.Lanes.{lane_black, lane_value};

use value::Value;

// Its number (row, or 9 + column), its first cell, the way from cell to cell, its first black (the second is the next value), and how many cells it has: any
// number, so that nobody is asked for a bound to have a lane.
#[derive(Clone, Copy)]
pub struct Lane {
    pub number: usize,
    pub start: usize,
    pub stride: usize,
    pub first: usize,
    pub len: usize,
    pub ghost within: { number < 18 },
    pub ghost cells: { (p : ℕ) → p < 9 → start + p * stride ≡ cell_at number p },
    pub ghost black: { first ≡ black_at number },
}

// A row and a column each have numbers of their own: one function for both would take them all, or which of the two it is.
impl Lane {
    pub fn row(len: usize, r: usize) -> Lane
        requires { r < 9 }
        ensures { (result.number ≡ r) × (result.start ≡ r * 9) × (result.stride ≡ 1) × (result.first ≡ left_black) × (result.len ≡ len) }
    {
        Lane {
            number: r,
            start: r * 9,
            stride: 1,
            first: Value::BLACK1_ROW,
            len,
        }
    }

    pub fn column(len: usize, c: usize) -> Lane
        requires { c < 9 }
        ensures { (result.number ≡ 9 + c) × (result.start ≡ c) × (result.stride ≡ 9) × (result.first ≡ upper_black) × (result.len ≡ len) }
    {
        Lane {
            number: 9 + c,
            start: c,
            stride: 9,
            first: Value::BLACK1_COL,
            len,
        }
    }

    // The cell at a place of it.
    pub fn cell(self, place: usize) -> usize
        requires { self.start + place * self.stride < 81 }
        ensures { result ≡ self.start + place * self.stride }
    {
        self.start + place * self.stride
    }

    // Its own blacks, of the four of a cell.
    pub fn has_black(self, v: usize) -> bool
        ensures { result ≡ lane_black self.first v }
    {
        self.first <= v && v - self.first < 2
    }

    // The values of its half of a cell: the digits and its own blacks.
    pub fn has(self, v: usize) -> bool
        ensures { result ≡ lane_value self.first v }
    {
        v < Value::BLACK1_ROW || self.has_black(v)
    }
}
