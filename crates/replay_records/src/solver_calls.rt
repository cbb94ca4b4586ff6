// The calls of the solver, each run on the fields of a record.
ghost use Rattle.record_fields.specs.Recorded.{Says};
ghost use Rattle.replay_records.specs.SolverAgreement.{CallGives, CountAgrees, FittingCompared, TableFound, CellsFound};

use crate::Buffer;
use record_fields::{buffer_recorded, count_recorded, field, number, size};
use units::Unit;

// Whether a call of the host that writes to a buffer comes out as recorded.
// Fields: size, rows, columns, marks, buffer before, answer, buffer after.
fn buffer_agrees<F: FnOnce(Unit, usize, &[u8], &[u8], &[u8], &mut [u8]) -> u8>(
    list: &[u8],
    call: F,
) -> bool
    requires { F.IsAlwaysCallable call }
    ensures { FittingCompared result (CallGives F.FnOnce call list.now) list.now }
{
    let Ok(mut buffer) = Buffer::try_from(field(list, 4)) else {
        return false;
    };
    let number = call(
        Unit::hall(),
        size(list),
        field(list, 1),
        field(list, 2),
        field(list, 3),
        &mut buffer,
    );
    buffer_recorded(list, number, &buffer)
}

pub(crate) fn candidates_agree(list: &[u8]) -> bool
    ensures { TableFound result list.now }
{
    buffer_agrees(list, host::candidates)
}

pub(crate) fn solve_agrees(list: &[u8]) -> bool
    ensures { CellsFound result list.now }
{
    buffer_agrees(list, host::solve)
}

// Fields: size, rows, columns, marks, cap, count before, answer, count after.
pub(crate) fn count_agrees(list: &[u8]) -> bool
    ensures { Says result (CountAgrees list.now) }
{
    let cap = field(list, 4);
    let old = field(list, 5);
    if cap.len() != 8 {
        return false;
    }
    if old.len() != 8 {
        return false;
    }
    let mut count = number(old);
    let answer = host::count(
        Unit::hall(),
        size(list),
        field(list, 1),
        field(list, 2),
        field(list, 3),
        number(cap),
        &mut count,
    );
    count_recorded(list, answer, count)
}
