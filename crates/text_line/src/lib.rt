// The answer to one line of `sheet`.
#![tactic(auto)]

ghost use Rattle.std.specs.Prelude.{◌≡◌, ◌-◌, ◌≤◌, ◌<◌, ◌++◌, length, take, drop};
ghost use Rattle.arrayvec.specs.ArrayVec.{array_vec_len};
ghost use Rattle.rules.specs.Grid.{puzzle};
ghost use Rattle.puzzle.specs.Accepted.{Passed};
ghost use Rattle.text_rules.specs.Fields.{size_of, number_checks};
ghost use Rattle.text_line.specs.Line.{LineGiven, solved_text, AnswerAsk, SolveTargetsAsk, TargetsAsk, PuzzleText, LineChecked};

use arrayvec::{ArrayVec, CapacityError};
use engine::{Verdict, solve};
use grid_size::GridSize;
use refusal::Refusal;
use text_answer::{Grid, write_refused, write_solved};
use text_buffer::write_text;
use text_numbers::read_numbers;
use units::Unit;

// The text of an answer of Solve.
fn write_answer<const N: usize>(
    answer: Result<Verdict, Refusal>,
    grid: Grid,
    out: &mut ArrayVec<u8, N>,
)
    requires { AnswerAsk answer grid.cells.now (N - array_vec_len out.old) }
    ensures { out.new.items ≡ out.old.items ++ solved_text answer grid.entry.n grid.entry.cells.now }
{
    match answer {
        Ok(Verdict::Unsolvable) => write_text(b"unsolvable", out),
        Ok(Verdict::Unique) => write_solved(b"unique ", grid, out),
        Ok(Verdict::Multiple) => write_solved(b"multiple ", grid, out),
        Err(refusal) => write_refused(refusal.number(), out),
    }
}

// Solves the puzzle with its row targets in front of its column targets, into cells of its size.
fn solve_targets<const N: usize>(
    size: GridSize,
    targets: &[u8],
    cells: &mut [u8],
    out: &mut ArrayVec<u8, N>,
)
    requires { SolveTargetsAsk size.n targets.now (length cells.old) (N - array_vec_len out.old) }
    ensures { PuzzleText (puzzle size.n (take size.n targets.now) (drop size.n targets.now)) out.old.items out.new.items }
{
    let n = size.n;
    let answer = solve(Unit::hall(), n, &targets[..n], &targets[n..], &[], cells);
    write_answer(answer, Grid { n, cells }, out);
}

// The answer to a puzzle with its row targets in front of its column targets.
// Not inlined: a refused line would have the large frame of the solver too.
#[inline(never)]
fn answer_targets<const N: usize>(size: GridSize, targets: &[u8], out: &mut ArrayVec<u8, N>)
    requires { TargetsAsk size.n targets.now (N - array_vec_len out.old) }
    ensures { PuzzleText (puzzle size.n (take size.n targets.now) (drop size.n targets.now)) out.old.items out.new.items }
{
    let mut cells = [0u8; 81];
    let area = size.n * size.n;
    solve_targets(size, targets, &mut cells[..area], out);
}

// The size that the numbers of a line begin with, where it is one and they have twice as many targets.
fn check_numbers(numbers: &[u8]) -> Result<GridSize, Refusal>
    requires { 0 < length numbers.now }
    ensures { Passed (take 2 (number_checks numbers.now)) (λ size. size.n ≡ size_of numbers.now) result }
{
    let n = usize::from(numbers[0]);
    let Some(size) = GridSize::try_new(n) else {
        return Err(Refusal::Size);
    };
    if numbers.len() != 2 * n + 1 {
        return Err(Refusal::TargetLengths);
    }
    Ok(size)
}

// The answer to the puzzle of a line; a line that has none is refused, and nothing is written.
fn answer_puzzle<const N: usize>(line: &[u8], out: &mut ArrayVec<u8, N>) -> Result<(), Refusal>
    requires { 99 ≤ N - array_vec_len out.old }
    ensures { LineChecked line.now out.old.items out.new.items result }
{
    let mut room = ArrayVec::new();
    let Some(numbers) = read_numbers(line, &mut room) else {
        return Err(Refusal::TextLine);
    };
    let size = check_numbers(numbers)?;
    answer_targets(size, &numbers[1..], out);
    Ok(())
}

// Appends the text that answers a line. A buffer with room for less than 100 bytes is left alone.
pub fn answer_line<const N: usize>(
    line: &[u8],
    out: &mut ArrayVec<u8, N>,
) -> Result<(), CapacityError>
    ensures { LineGiven line.now (N - array_vec_len out.old) result out.old.items out.new.items }
{
    if out.remaining_capacity() < 100 {
        return Err(CapacityError::new(()));
    }
    match answer_puzzle(line, out) {
        Ok(()) => {}
        // Its text as a whole: to write its number in decimal took a fifth of an empty line's time.
        Err(Refusal::TextLine) => write_text(b"refused 11", out),
        Err(refusal) => write_refused(refusal.number(), out),
    }
    Ok(())
}
