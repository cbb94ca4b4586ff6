// The calls of a host in a unit: answers become numbers, and a table of candidates becomes bytes. What they take is as C gives it, size and slices one by one.
#![tactic(auto)]

ghost use Rattle.std.specs.Prelude.{◌≡◌, min, length};
ghost use Rattle.rules.specs.Grid.{puzzle};
ghost use Rattle.rules.specs.Mark.{marks_of};
ghost use Rattle.rules.specs.Sums.{target_sums};
ghost use Rattle.table.specs.Table.{entries_of};
ghost use Rattle.sheet_marking.specs.Answer.{mark_sheet};
ghost use Rattle.engine.specs.Answer.{count_answer, solve_answer, solve_cells};
ghost use Rattle.table_bytes.specs.Entries.{most_lent};
ghost use Rattle.host.specs.Number.{TableNumbered, sheet_number, count_out, solve_number};

use candidates::Outcome;
use engine::Verdict;
use refusal::{Refusal, number_of};
use units::Unit;

// The numbers of the answers that are no refusals, as C knows them.
#[derive(Clone, Copy)]
pub struct Answer;

impl Answer {
    pub const WRONG: u8 = 100;

    pub const RIGHT: u8 = 101;

    pub const UNSOLVABLE: u8 = 100;

    pub const UNIQUE: u8 = 101;

    pub const MULTIPLE: u8 = 102;

    pub const WRITTEN: u8 = 0;

    pub const CONTRADICTED: u8 = 100;
}

// 0 where both target slices hold the sums, else the number of the refusal.
pub fn target_sums(unit: Unit, size: usize, cells: &[u8], rows: &mut [u8], columns: &mut [u8]) -> u8
    ensures { (result, rows.new, columns.new) ≡ target_sums unit size cells.now rows.old columns.old }
{
    number_of(target_sums::compute_targets(unit, size, cells, rows, columns))
}

fn sheet_number(answer: Result<bool, Refusal>) -> u8
    ensures { result ≡ sheet_number answer }
{
    match answer {
        Ok(true) => Answer::RIGHT,
        Ok(false) => Answer::WRONG,
        Err(refusal) => refusal.number(),
    }
}

// WRONG or RIGHT, or the number of the refusal.
pub fn mark_sheet(unit: Unit, size: usize, rows: &[u8], columns: &[u8], cells: &[u8]) -> u8
    ensures { result ≡ sheet_number (mark_sheet unit (puzzle size rows.now columns.now) cells.now) }
{
    sheet_number(sheet_marking::mark_sheet(unit, size, rows, columns, cells))
}

// 0 where the count is the smaller of the cap and the number of grids that keep the puzzle and the marks, else the number of the refusal.
pub fn count(
    unit: Unit,
    size: usize,
    rows: &[u8],
    columns: &[u8],
    marks: &[u8],
    cap: u64,
    count: &mut u64,
) -> u8
    ensures { (result, count.new) ≡ count_out
        (count_answer unit (puzzle size rows.now columns.now) (marks_of marks.now) cap) count.old }
{
    match engine::count(unit, size, rows, columns, marks, cap) {
        Ok(c) => {
            *count = c;
            0
        }
        Err(refusal) => refusal.number(),
    }
}

fn solve_number(answer: Result<Verdict, Refusal>) -> u8
    ensures { result ≡ solve_number answer }
{
    match answer {
        Ok(Verdict::Unsolvable) => Answer::UNSOLVABLE,
        Ok(Verdict::Unique) => Answer::UNIQUE,
        Ok(Verdict::Multiple) => Answer::MULTIPLE,
        Err(refusal) => refusal.number(),
    }
}

// UNSOLVABLE, UNIQUE or MULTIPLE, or the number of the refusal. The cells hold the first of the grids in order, if there is one.
pub fn solve(
    unit: Unit,
    size: usize,
    rows: &[u8],
    columns: &[u8],
    marks: &[u8],
    cells: &mut [u8],
) -> u8
    ensures { (result ≡ solve_number
        (solve_answer unit (puzzle size rows.now columns.now) (marks_of marks.now) (length cells.old)))
        × (cells.new ≡ solve_cells unit (puzzle size rows.now columns.now) (marks_of marks.now) cells.old) }
{
    solve_number(engine::solve(unit, size, rows, columns, marks, cells))
}

// Candidates by way of lent entries, which become the bytes of the table where they are written.
fn candidates_by_entries(
    unit: Unit,
    size: usize,
    rows: &[u8],
    columns: &[u8],
    marks: &[u8],
    entries: &mut [u16],
    table: &mut [u8],
) -> u8
    requires { length entries.old ≡ min (length (entries_of table.old)) most_lent }
    ensures { TableNumbered unit (puzzle size rows.now columns.now) (marks_of marks.now)
        result table.old table.new }
{
    match candidates::candidates(unit, size, rows, columns, marks, entries) {
        Ok(Outcome::Written) => {
            table_bytes::write_entries(entries, table);
            Answer::WRITTEN
        }
        Ok(Outcome::Contradicted) => Answer::CONTRADICTED,
        Err(refusal) => refusal.number(),
    }
}

// WRITTEN where the table holds the candidates that remain, CONTRADICTED where a cell has none, or the number of the refusal.
pub fn candidates(
    unit: Unit,
    size: usize,
    rows: &[u8],
    columns: &[u8],
    marks: &[u8],
    table: &mut [u8],
) -> u8
    ensures { TableNumbered unit (puzzle size rows.now columns.now) (marks_of marks.now)
        result table.old table.new }
{
    let count = table_bytes::lent_count(table.len());
    let mut entries = [0u16; table_bytes::MOST_LENT];
    candidates_by_entries(
        unit,
        size,
        rows,
        columns,
        marks,
        &mut entries[..count],
        table,
    )
}
