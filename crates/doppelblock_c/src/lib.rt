// What a host of the hall links, in libdoppelblock.a: each export calls the function of crates/host with its unit. Numbers and byte slices only:
// an answer is the number of a refusal, or one of `host::Answer`.
#![tactic(auto)]

ghost use Rattle.std.specs.Prelude.{◌≡◌, length};
ghost use Rattle.units.specs.Limits.{hall, list_limit};
ghost use Rattle.rules.specs.Grid.{puzzle};
ghost use Rattle.rules.specs.Mark.{marks_of};
ghost use Rattle.rules.specs.Sums.{target_sums};
ghost use Rattle.sheet_marking.specs.Answer.{mark_sheet};
ghost use Rattle.engine.specs.Answer.{count_answer, solve_answer, solve_cells};
ghost use Rattle.host.specs.Number.{TableNumbered, sheet_number, count_out, solve_number};

use units::Unit;

// 0 where both target slices hold the sums, else the number of the refusal.
#[unsafe(no_mangle)]
pub extern "C" fn doppelblock_target_sums(
    size: usize,
    cells: &[u8],
    rows: &mut [u8],
    columns: &mut [u8],
) -> u8
    ensures { (result, rows.new, columns.new) ≡ target_sums hall size cells.now rows.old columns.old }
{
    host::target_sums(Unit::hall(), size, cells, rows, columns)
}

// WRONG or RIGHT, or the number of the refusal.
#[unsafe(no_mangle)]
pub extern "C" fn doppelblock_mark_sheet(
    size: usize,
    rows: &[u8],
    columns: &[u8],
    cells: &[u8],
) -> u8
    ensures { result ≡ sheet_number (mark_sheet hall (puzzle size rows.now columns.now) cells.now) }
{
    host::mark_sheet(Unit::hall(), size, rows, columns, cells)
}

// 0 where the count is the smaller of the cap and the number of grids that keep the puzzle and the marks, else the number of the refusal.
#[unsafe(no_mangle)]
pub extern "C" fn doppelblock_count(
    size: usize,
    rows: &[u8],
    columns: &[u8],
    marks: &[u8],
    cap: u64,
    count: &mut u64,
) -> u8
    ensures { (result, count.new) ≡ count_out
        (count_answer hall (puzzle size rows.now columns.now) (marks_of marks.now) cap) count.old }
{
    host::count(Unit::hall(), size, rows, columns, marks, cap, count)
}

// UNSOLVABLE, UNIQUE or MULTIPLE, or the number of the refusal. The cells hold the first of the grids in order, if there is one.
#[unsafe(no_mangle)]
pub extern "C" fn doppelblock_solve(
    size: usize,
    rows: &[u8],
    columns: &[u8],
    marks: &[u8],
    cells: &mut [u8],
) -> u8
    ensures { (result ≡ solve_number
        (solve_answer hall (puzzle size rows.now columns.now) (marks_of marks.now) (length cells.old)))
        × (cells.new ≡ solve_cells hall (puzzle size rows.now columns.now) (marks_of marks.now) cells.old) }
{
    host::solve(Unit::hall(), size, rows, columns, marks, cells)
}

// WRITTEN where the table holds the candidates that remain, CONTRADICTED where a cell has none, or the number of the refusal.
#[unsafe(no_mangle)]
pub extern "C" fn doppelblock_candidates(
    size: usize,
    rows: &[u8],
    columns: &[u8],
    marks: &[u8],
    table: &mut [u8],
) -> u8
    ensures { TableNumbered hall (puzzle size rows.now columns.now) (marks_of marks.now)
        result table.old table.new }
{
    host::candidates(Unit::hall(), size, rows, columns, marks, table)
}

// The greatest size of the unit.
#[unsafe(no_mangle)]
pub extern "C" fn doppelblock_size_limit() -> usize
    ensures { result ≡ hall.greatest }
{
    Unit::hall().size_limit()
}

// The greatest number of marks in a list, or the greatest number of all where the unit takes any list.
#[unsafe(no_mangle)]
pub extern "C" fn doppelblock_list_limit() -> usize
    ensures { result ≡ list_limit hall }
{
    Unit::hall().list_limit()
}
