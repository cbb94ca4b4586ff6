// Target sums of a grid of cells (in the Rust: grid.rs, compute_targets).
#![tactic(auto)]

ghost use Rattle.std.specs.Prelude.{◌≡◌, ◌≤◌, length, drop};
ghost use Rattle.tally.specs.Tally.{sum, join};
ghost use Rattle.rules.specs.Grid.{until_black, line_sum};
ghost use Rattle.puzzle.specs.Accepted.{Passed};
ghost use Rattle.rules.specs.Check.{check_line};
ghost use Rattle.rules.specs.Sums.{target_sums};
ghost use Rattle.grid_lines.specs.Cells.{line_cells, each_line};
ghost use Rattle.target_sums.specs.Answer.{SumsAnswered};
ghost use Rattle.target_sums.specs.Front.{front_checks};
ghost use Rattle.target_sums.specs.Scanning.{BehindBlack, ToBlackAsk};
ghost use Rattle.target_sums.specs.Tally.{most, weight, tallied_sum, AddedBetween, OneMore, RowAddAsk, RowAdded, Told};
ghost use Rattle.target_sums.specs.Tallies.{TallyAsk, GridTallied, TalliesAsk, tallied_sums, WriteAsk};

use grid_lines::{Line, Lines};
use grid_size::GridSize;
use puzzle::{check_size, targets_fit};
use refusal::Refusal;
use units::Unit;

// The place behind the first black of a line, or its end.
fn past_black(line: Line) -> usize
    ensures { BehindBlack result line.entry.len (line_cells line.entry) }
{
    for j in 0..line.len {
        if line.byte(j) == 255 {
            return j + 1;
        }
    }
    line.len
}

// The sum of the cells from a place of a line up to the next black.
fn sum_to_black(line: Line, from: usize) -> u8
    requires { ToBlackAsk (line_cells line) line.len from }
    ensures { result ≡ sum (until_black (drop from (line_cells line.entry))) }
{
    let mut s = 0;
    for j in from..line.len {
        let c = line.byte(j);
        if c == 255 {
            return s;
        }
        s += c;
    }
    s
}

// The sum between the blacks: no cell behind the second is read.
pub fn line_sum(line: Line) -> u8
    requires { line_sum (line_cells line) ≤ 255 }
    ensures { result ≡ line_sum (line_cells line.entry) }
{
    let from = past_black(line);
    sum_to_black(line, from)
}

// The tally of a line counts its blacks in the low byte, and has the sum of the cells between the first two in the bits from 8 on. An empty cell between
// them counts in the bits from 20 on, above any sum.
const EMPTY: u32 = 0x100000;

// A tally below this has no empty cell, and its sum fits in a byte.
const ABOVE_SUMS: u32 = 0x10000;

// The tallies of the row and of the column of a cell.
#[derive(Clone, Copy)]
struct Tallies {
    row: u32,
    column: u32,
}

// What a cell between the blacks adds to the tally.
fn weight(c: u8) -> u32
    ensures { result ≡ weight c }
{
    if c == 0 { EMPTY } else { 256 * u32::from(c) }
}

// The tally with a weight added, if the cell stands between the blacks.
fn add_between(t: u32, v: u32) -> u32
    requires { (t ≤ most) × (v ≤ 1048576) }
    ensures { AddedBetween t v result }
{
    if t % 256 == 1 {
        return t + v;
    }
    t
}

// Both tallies with one cell more.
fn add_cell(t: Tallies, c: u8) -> Tallies
    requires { (t.row ≤ most) × (t.column ≤ most) }
    ensures { OneMore t.row c result.row × OneMore t.column c result.column }
{
    if c == 255 {
        return Tallies {
            row: t.row + 1,
            column: t.column + 1,
        };
    }
    let v = weight(c);
    Tallies {
        row: add_between(t.row, v),
        column: add_between(t.column, v),
    }
}

// The tally of a row, each cell of which is added to the tally of its column.
fn add_row(row: Line, down: &mut [u32]) -> u32
    requires { RowAddAsk row.len down.old }
    ensures { RowAdded row.entry result down.old down.new }
{
    let mut t = 0;
    for j in 0..row.len {
        let added = add_cell(
            Tallies {
                row: t,
                column: down[j],
            },
            row.byte(j),
        );
        t = added.row;
        down[j] = added.column;
    }
    t
}

// The checks of a line, by its tally.
fn check_tally(t: u32) -> Result<(), Refusal>
    ensures { Told t result }
{
    if t % 256 != 2 {
        return Err(Refusal::Blacks);
    }
    if t < ABOVE_SUMS {
        return Ok(());
    }
    if EMPTY <= t {
        return Err(Refusal::EmptyCell);
    }
    Err(Refusal::Sum)
}

// The tallies of all rows and columns: one walk over the grid is faster than one for each line. A row is checked when its walk ends, so that no cell behind
// the first row with a fault is read.
fn tally_grid(rows: Lines, across: &mut [u32], down: &mut [u32]) -> Result<(), Refusal>
    requires { TallyAsk rows.count (length across.old) down.old }
    ensures { Passed (join (each_line check_line rows.entry))
        (λ done. GridTallied rows.entry across.new down.new × (tallied_sums across.new rows.entry.count ≡ each_line line_sum rows.entry)) result }
{
    for i in 0..rows.count {
        let t = add_row(rows.line(i), down);
        check_tally(t)?;
        across[i] = t;
    }
    Ok(())
}

// The checks of one line after the other, by their tallies.
fn check_tallies(lines: Lines, tallies: &[u32]) -> Result<(), Refusal>
    requires { TalliesAsk lines tallies.now }
    ensures { Passed (join (each_line check_line lines.entry))
        (λ done. tallied_sums tallies.now lines.entry.count ≡ each_line line_sum lines.entry) result }
{
    for i in 0..lines.count {
        check_tally(tallies[i])?;
    }
    Ok(())
}

// The size, if the checks in front of those of the lines pass.
fn checked_size(
    unit: Unit,
    n: usize,
    cells: &[u8],
    rows: usize,
    columns: usize,
) -> Result<GridSize, Refusal>
    ensures { Passed (front_checks unit n cells.now rows columns) (λ size. size.n ≡ n) result }
{
    let size = check_size(unit, n)?;
    if cells.len() != n * n {
        return Err(Refusal::CellsLength);
    }
    if !targets_fit(n, rows, columns) {
        return Err(Refusal::TargetLengths);
    }
    Ok(size)
}

// The sum in the tally of a line that passed its checks.
fn tallied_sum(t: u32) -> u8
    ensures { result ≡ tallied_sum t }
{
    (t / 256 % 256) as u8
}

// The sums of rows and columns, from their tallies.
fn write_sums(across: &[u32], down: &[u32], rows: &mut [u8], columns: &mut [u8])
    requires { WriteAsk (length across.now) (length down.now) (length rows.old) (length columns.old) }
    ensures { (rows.new ≡ tallied_sums across.now (length rows.old)) × (columns.new ≡ tallied_sums down.now (length rows.old)) }
{
    for i in 0..rows.len() {
        rows[i] = tallied_sum(across[i]);
        columns[i] = tallied_sum(down[i]);
    }
}

// The target sums of the cells, rows then columns, written where nothing is refused.
pub fn compute_targets(
    unit: Unit,
    size: usize,
    cells: &[u8],
    rows: &mut [u8],
    columns: &mut [u8],
) -> Result<(), Refusal>
    ensures { SumsAnswered (target_sums unit size cells.now rows.old columns.old)
        result rows.new columns.new }
{
    let size = checked_size(unit, size, cells, rows.len(), columns.len())?;
    let mut across = [0u32; 9];
    let mut down = [0u32; 9];
    let row_lines = Lines::rows(cells, size);
    let column_lines = Lines::columns(cells, size);
    tally_grid(row_lines, &mut across, &mut down)?;
    check_tallies(column_lines, &down)?;
    write_sums(&across, &down, rows, columns);
    Ok(())
}
