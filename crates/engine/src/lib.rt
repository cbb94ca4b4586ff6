// Count and Solve (in the Rust: count_solutions and solve). What they are given comes one by one, as in crates/host: a struct of it would be made for one call.
#![tactic(auto)]

ghost use Rattle.std.specs.Prelude.{◌≡◌, ◌*◌, true, length};
ghost use Rattle.rules.specs.Mark.{marks_of};
ghost use Rattle.rules.specs.Check.{count_checks, solve_checks};
ghost use Rattle.rules.specs.Grid.{puzzle};
ghost use Rattle.rules.specs.Order.{found};
ghost use Rattle.puzzle.specs.Accepted.{Passed};
ghost use Rattle.puzzle.specs.Stands.{puzzle_of};
ghost use Rattle.prepare.specs.Asked.{Asks};
ghost use Rattle.engine.specs.Answer.{count_answer, verdict_on, solve_answer, solve_cells};
ghost use Rattle.backtrack.specs.Search.{Given};

use arrangements::Arrangements;
use backtrack::search;
use mark_list::check_list;
use prepare::{Question, prepare};
use puzzle::Puzzle;
use queue_state::Slab;
use refusal::Refusal;
use units::Unit;
use words::ROOM;

// Whether a puzzle and its marks have no grid, one, or more.
#[derive(Clone, Copy, Debug, PartialEq, Eq)]
pub enum Verdict {
    Unsolvable,
    Unique,
    Multiple,
}

// The question of a puzzle and its marks, if they pass their checks.
fn check_count<'a>(
    unit: Unit,
    n: usize,
    rows: &'a [u8],
    columns: &'a [u8],
    marks: &'a [u8],
) -> Result<Question<'a>, Refusal>
    ensures { Passed (count_checks unit (puzzle n rows.now columns.now) (marks_of marks.now))
        (Asks (puzzle n rows.now columns.now) (marks_of marks.now)) result }
{
    let puzzle = Puzzle::try_new(unit, n, rows, columns)?;
    check_list(unit, puzzle.size, marks)?;
    Ok(Question { puzzle, marks })
}

// The number of a question's grids, at most max; the first in order is written if it is wanted.
fn find_grids(q: Question, max: u64, wanted: bool, cells: &mut [u8]) -> u64
    requires { wanted ≡ true → length cells.old ≡ q.puzzle.size.n * q.puzzle.size.n }
    ensures { Given (found (puzzle_of q.entry.puzzle) (marks_of q.entry.marks.now)) max wanted result cells.old cells.new }
{
    // Made here and in candidates: given by a function, both would be copied.
    let mut st = [0u16; Slab::SIZE];
    let mut words = [0u32; ROOM];
    if prepare(&mut st, &mut words, q).is_err() {
        return 0;
    }
    let arrangements = Arrangements {
        size: q.puzzle.size,
        words: &words,
    };
    search(&mut st, arrangements, max, wanted, cells)
}

// The number of grids that keep the puzzle and the marks, at most the cap.
pub fn count(
    unit: Unit,
    size: usize,
    rows: &[u8],
    columns: &[u8],
    marks: &[u8],
    cap: u64,
) -> Result<u64, Refusal>
    ensures { result ≡ count_answer unit (puzzle size rows.now columns.now) (marks_of marks.now) cap }
{
    let question = check_count(unit, size, rows, columns, marks)?;
    Ok(find_grids(question, cap, false, &mut []))
}

// The same, with a cell buffer of the size.
pub fn check_solve<'a>(
    unit: Unit,
    n: usize,
    rows: &'a [u8],
    columns: &'a [u8],
    marks: &'a [u8],
    len: usize,
) -> Result<Question<'a>, Refusal>
    ensures { Passed (solve_checks unit (puzzle n rows.now columns.now) (marks_of marks.now) len)
        (λ q. Asks (puzzle n rows.now columns.now) (marks_of marks.now) q × (len ≡ q.puzzle.size.n * q.puzzle.size.n)) result }
{
    let question = check_count(unit, n, rows, columns, marks)?;
    let size = question.puzzle.size;
    if len == size.n * size.n {
        Ok(question)
    } else {
        Err(Refusal::CellsLength)
    }
}

fn verdict_of(found: u64) -> Verdict
    ensures { result ≡ verdict_on found }
{
    match found {
        0 => Verdict::Unsolvable,
        1 => Verdict::Unique,
        _ => Verdict::Multiple,
    }
}

// The verdict, and the first of the grids in order if there is one.
pub fn solve(
    unit: Unit,
    size: usize,
    rows: &[u8],
    columns: &[u8],
    marks: &[u8],
    cells: &mut [u8],
) -> Result<Verdict, Refusal>
    ensures { (result ≡ solve_answer unit (puzzle size rows.now columns.now) (marks_of marks.now) (length cells.old))
        × (cells.new ≡ solve_cells unit (puzzle size rows.now columns.now) (marks_of marks.now) cells.old) }
{
    let question = check_solve(unit, size, rows, columns, marks, cells.len())?;
    Ok(verdict_of(find_grids(question, 2, true, cells)))
}
