// Candidates: the table of candidates after the marks and one more propagation (in the Rust: domains after propagate). Its input comes one by one, as that of
// crates/engine.
#![tactic(auto)]

ghost use Rattle.std.specs.Prelude.{◌≡◌, ◌*◌, length};
ghost use Rattle.rules.specs.Mark.{marks_of};
ghost use Rattle.rules.specs.Grid.{puzzle};
ghost use Rattle.puzzle.specs.Stands.{puzzle_of};
ghost use Rattle.candidates.specs.Remaining.{TableGiven, Tabled};

use arrangements::Arrangements;
use engine::check_solve;
use prepare::{Question, prepare};
use propagate::{Contradicted, propagate};
use queue_state::Slab;
use refusal::Refusal;
use state_view::StateView;
use units::Unit;
use words::ROOM;
use written::write_candidates;

// Whether the table was written, or a cell was left with no candidate. No Result in a Result: a contradiction is an answer of the call, and no refusal.
#[derive(Clone, Copy, Debug, PartialEq, Eq)]
pub enum Outcome {
    Contradicted,
    Written,
}

// Writes the table of a question, unless a cell is left without candidates.
fn write_table(q: Question, table: &mut [u16]) -> Result<(), Contradicted>
    requires { length table.old ≡ q.puzzle.size.n * q.puzzle.size.n }
    ensures { Tabled (puzzle_of q.entry.puzzle) (marks_of q.entry.marks.now) result table.old table.new }
{
    let mut st = [0u16; Slab::SIZE];
    let mut words = [0u32; ROOM];
    prepare(&mut st, &mut words, q)?;
    let arrangements = Arrangements {
        size: q.puzzle.size,
        words: &words,
    };
    propagate(&mut st, arrangements)?;
    let view = StateView {
        st: &st,
        n: arrangements.size.n,
    };
    write_candidates(view, table);
    Ok(())
}

// The candidates that are left of a puzzle and marks, n * n masks row by row, unless a cell is left with none.
pub fn candidates(
    unit: Unit,
    size: usize,
    rows: &[u8],
    columns: &[u8],
    marks: &[u8],
    table: &mut [u16],
) -> Result<Outcome, Refusal>
    ensures { TableGiven unit (puzzle size rows.now columns.now) (marks_of marks.now)
        result table.old table.new }
{
    let question = check_solve(unit, size, rows, columns, marks, table.len())?;
    match write_table(question, table) {
        Ok(()) => Ok(Outcome::Written),
        Err(Contradicted) => Ok(Outcome::Contradicted),
    }
}
