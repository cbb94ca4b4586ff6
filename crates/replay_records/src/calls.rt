// Target sums, marking and the check of a line, run on the fields of a record.
ghost use Rattle.std.specs.Prelude.{◌≡◌};
ghost use Rattle.record_fields.specs.Recorded.{Says};
ghost use Rattle.replay_records.specs.Agreement.{SumsAgree, SheetAgrees, step_number, LineAgrees};

use crate::Buffer;
use grid_lines::Line;
use grid_size::GridSize;
use record_fields::{byte, field, is_number, size, sums_recorded};
use sheet_marking::{LineFault, line_fault};
use units::Unit;

// Fields: size, cells, rows before, columns before, answer, rows after, columns after.
pub(crate) fn target_sums_agree(list: &[u8]) -> bool
    ensures { Says result (SumsAgree list.now) }
{
    let (Ok(mut rows), Ok(mut columns)) = (
        Buffer::try_from(field(list, 2)),
        Buffer::try_from(field(list, 3)),
    ) else {
        return false;
    };
    let number = host::target_sums(
        Unit::hall(),
        size(list),
        field(list, 1),
        &mut rows,
        &mut columns,
    );
    sums_recorded(list, number, &rows, &columns)
}

// Fields: size, rows, columns, cells, answer.
pub(crate) fn mark_sheet_agrees(list: &[u8]) -> bool
    ensures { Says result (SheetAgrees list.now) }
{
    let number = host::mark_sheet(
        Unit::hall(),
        size(list),
        field(list, 1),
        field(list, 2),
        field(list, 3),
    );
    is_number(list, 4, number)
}

// The number of the step that a line fails first, 0 for none.
fn step_number(fault: Option<LineFault>) -> u8
    ensures { result ≡ step_number fault }
{
    match fault {
        None => 0,
        Some(LineFault::Digits) => 1,
        Some(LineFault::Blacks) => 2,
        Some(LineFault::Sum) => 3,
    }
}

// Fields: size, target, cells, answer. The call asks for a size and as many cells.
pub(crate) fn line_check_agrees(list: &[u8]) -> bool
    ensures { Says result (LineAgrees list.now) }
{
    let n = size(list);
    let cells = field(list, 2);
    if GridSize::try_new(n).is_none() || cells.len() != n {
        return false;
    }
    let line = Line {
        cells,
        start: 0,
        stride: 1,
        len: n,
    };
    let fault = line_fault(line, byte(field(list, 1), 0));
    is_number(list, 3, step_number(fault))
}
