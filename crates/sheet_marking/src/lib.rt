// Marking a sheet of cells against the targets of a puzzle: each of its lines has to keep the rules and its target. Its input comes one by one, as that of
// crates/engine.
#![tactic(auto)]

ghost use Rattle.std.specs.Prelude.{◌≡◌, ◌*◌, ◌^◌, length, get_or};
ghost use Rattle.tally.specs.Tally.{all, span};
ghost use Rattle.rules.specs.Grid.{digits_once, two_blacks, line_sum, meets, keeps_line, keeps, puzzle};
ghost use Rattle.puzzle.specs.Accepted.{Passed};
ghost use Rattle.puzzle.specs.Stands.{puzzle_of};
ghost use Rattle.rules.specs.Check.{sheet_checks};
ghost use Rattle.rules.specs.Size.{Size};
ghost use Rattle.rules.specs.Strided.{strided};
ghost use Rattle.grid_lines.specs.Cells.{line_cells};
ghost use Rattle.sheet_marking.specs.Answer.{mark_sheet};
ghost use Rattle.sheet_marking.specs.Counts.{byte_place, CountsOf, CountsTell};
ghost use Rattle.sheet_marking.specs.Fault.{line_fault};
ghost use Rattle.sheet_marking.specs.Marking.{LawfulAsk};

use grid_lines::{Line, Lines};
use grid_size::GridSize;
use puzzle::Puzzle;
use refusal::Refusal;
use target_sums::line_sum;
use units::Unit;

// The fault of a line: the first step of its check that fails, in the sequence of the printed rules.
#[derive(Clone, Copy, Debug, PartialEq, Eq)]
pub enum LineFault {
    Digits,
    Blacks,
    Sum,
}

// Where the count of a byte stands: a black at 0, an empty cell at 1, a digit behind these, all others at 9.
fn byte_place(c: u8) -> usize
    ensures { result ≡ byte_place c }
{
    let v = (usize::from(c) + 1) % 256;
    if v < 9 { v } else { 9 }
}

// A one in the four bits of that place.
fn one_at(c: u8) -> u64
    ensures { result ≡ 2 ^ (4 * byte_place c) }
{
    let p = byte_place(c);
    1u64 << (4 * p)
}

// How often each byte stands in a line, without a branch on the cell: it takes as long for every line.
fn byte_counts(line: Line) -> u64
    ensures { CountsOf result (line_cells line.entry) }
{
    let mut m = 0;
    for j in 0..line.len {
        m += one_at(line.byte(j));
    }
    m
}

// Step 1: each digit of size n stands in the line once: behind the counts of blacks and empty cells, n - 2 counts are 1.
fn digits_once(m: u64, size: GridSize) -> bool
    ensures { CountsTell m (digits_once size.n) result }
{
    let p = 1u64 << (4 * (size.n - 2));
    m / 256 % p == 0x1111111 % p
}

// Step 2: two cells of the line are black.
fn two_blacks(m: u64) -> bool
    ensures { CountsTell m two_blacks result }
{
    m % 16 == 2
}

// Step 3: the sum between the blacks meets the target. It is asked of lawful lines only, so that a byte holds it.
fn sum_meets(line: Line, t: u8) -> bool
    requires { LawfulAsk line.len (line_cells line) }
    ensures { result ≡ meets t (line_sum (line_cells line.entry)) }
{
    t == line_sum(line)
}

// The check of a line: the three steps, one after the other.
pub fn line_fault(line: Line, t: u8) -> Option<LineFault>
    requires { Size line.len }
    ensures { result ≡ line_fault line.entry.len t (line_cells line.entry) }
{
    let m = byte_counts(line);
    if !digits_once(m, GridSize { n: line.len }) {
        return Some(LineFault::Digits);
    }
    if !two_blacks(m) {
        return Some(LineFault::Blacks);
    }
    if !sum_meets(line, t) {
        return Some(LineFault::Sum);
    }
    None
}

// Each of the lines keeps its target.
fn lines_keep(lines: Lines, targets: &[u8]) -> bool
    requires { Size lines.count × (length targets.now ≡ lines.count) }
    ensures { result ≡ all (λ i. keeps_line lines.entry.count (get_or targets.now i 0)
        (strided (i * lines.entry.step) lines.entry.stride lines.entry.cells.now lines.entry.count)) (span 0 lines.entry.count) }
{
    for i in 0..lines.count {
        if line_fault(lines.line(i), targets[i]).is_some() {
            return false;
        }
    }
    true
}

// The puzzle of a sheet, if the checks of the sheet in a unit pass.
fn check_sheet<'a>(
    unit: Unit,
    n: usize,
    rows: &'a [u8],
    columns: &'a [u8],
    cells: &[u8],
) -> Result<Puzzle<'a>, Refusal>
    ensures { Passed (sheet_checks unit (puzzle n rows.now columns.now) cells.now) (λ p. puzzle_of p ≡ puzzle n rows.now columns.now) result }
{
    let puzzle = Puzzle::try_new(unit, n, rows, columns)?;
    if cells.len() != n * n {
        return Err(Refusal::CellsLength);
    }
    Ok(puzzle)
}

// The sheet keeps the puzzle: each row, then each column keeps its target.
fn sheet_right(p: Puzzle, cells: &[u8]) -> bool
    requires { length cells.now ≡ p.size.n * p.size.n }
    ensures { result ≡ keeps (puzzle_of p.entry) cells.now }
{
    let across = Lines::rows(cells, p.size);
    let down = Lines::columns(cells, p.size);
    lines_keep(across, p.rows) && lines_keep(down, p.columns)
}

// Whether the sheet is right: exactly when the cells keep the puzzle.
pub fn mark_sheet(
    unit: Unit,
    size: usize,
    rows: &[u8],
    columns: &[u8],
    cells: &[u8],
) -> Result<bool, Refusal>
    ensures { result ≡ mark_sheet unit (puzzle size rows.now columns.now) cells.now }
{
    let puzzle = check_sheet(unit, size, rows, columns, cells)?;
    Ok(sheet_right(puzzle, cells))
}
