// The branching rule (in the Rust, by another rule: pick_branching_cell and pick_branching_bit). Called once for each node of the search.
// It follows the order of grids (crates/rules/specs/Order): so the grids of the branch that takes the value come before those of the branch that rejects it.
#![tactic(auto)]

ghost use Rattle.std.specs.Prelude.{◌≡◌, ◌+◌, ◌*◌, ◌<◌};
ghost use Rattle.pick.specs.Choice.{Picked};
ghost use Rattle.pick.specs.Scanning.{OpenHalf, OpenValues, greater_of, FirstValue, Undecided, LastColumn};

use state_view::StateView;
use value::{Candidate, Value};

// A value of a row.
#[derive(Clone, Copy)]
pub struct RowValue {
    pub row: usize,
    pub value: usize,
}

// The row half of a cell that is open: two or more bits of it are set. Nothing of another.
fn open_half(view: StateView, cell: usize) -> u16
    requires { cell < 81 }
    ensures { OpenHalf view.entry.st.now cell result }
{
    let half = view.candidates(cell) & Value::ROW_HALF;
    if half.count_ones() >= 2 { half } else { 0 }
}

// The values that the open cells of row r have.
fn open_values(view: StateView, r: usize) -> u16
    requires { r < view.n }
    ensures { OpenValues view.entry.st.now r view.entry.n result }
{
    let mut values = 0;
    for c in 0..view.n {
        values |= open_half(view, r * 9 + c);
    }
    values
}

// The next one if its value is greater than the best so far, else the best.
fn greater(best: Option<RowValue>, next: RowValue) -> Option<RowValue>
    ensures { result ≡ greater_of best next }
{
    match best {
        Some(old) if old.value >= next.value => best,
        _ => Some(next),
    }
}

// The first value of the sequence that an open cell of its row has: the right or else the left black of the first row that has one open, or else the greatest
// digit, in the first row that has it open.
fn pick_value(view: StateView) -> Option<RowValue>
    ensures { FirstValue view.entry.n view.entry.st.now result }
{
    let mut best: Option<RowValue> = None;
    for row in 0..view.n {
        let values = open_values(view, row);
        if values != 0 {
            // The blacks are the highest bits, the right one above the left.
            let value = values.ilog2() as usize;
            if value >= Value::BLACK1_ROW {
                return Some(RowValue { row, value });
            }
            best = greater(best, RowValue { row, value });
        }
    }
    best
}

// The last column whose cell in the row is open and has the value.
fn pick_column(view: StateView, at: RowValue) -> usize
    requires { Undecided view.n view.st.now at }
    ensures { LastColumn view.entry.st.now at view.entry.n result }
{
    let mut column = 0;
    for c in 0..view.n {
        if (open_half(view, at.row * 9 + c) >> at.value) % 2 == 1 {
            column = c;
        }
    }
    column
}

// What to branch on, or nothing where no cell has a choice.
pub fn pick_branch(view: StateView) -> Option<Candidate>
    ensures { Picked view.entry.n view.entry.st.now result }
{
    let at = pick_value(view)?;
    let column = pick_column(view, at);
    Some(Candidate {
        row: at.row,
        column,
        value: at.value,
    })
}
