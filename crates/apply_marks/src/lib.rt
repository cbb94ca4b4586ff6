// Applying the marks of a question to the solver's state (in the Rust: take_branch and reject_branch, without their propagation).
#![tactic(auto)]

ghost use Rattle.std.specs.Prelude.{[], ◌∷◌};
ghost use Rattle.rules.specs.Mark.{marks_of};
ghost use Rattle.apply_marks.specs.Applied.{MarkAsk, MarksAsk, MarksApplied};

use mark_list::{Mark, mark_at, mark_count};
use queue_state::clear_value;
use set_cell::set_cell;

// Strikes the value of a rejecting mark, sets the cell to that of a taking one.
fn apply_mark(st: &mut [u16], n: usize, word: u16)
    requires { MarkAsk n st.old word }
    ensures { MarksApplied n st.old st.new (word ∷ []) }
{
    let m = Mark::unpack(word);
    let x = m.candidate;
    if m.rejects {
        clear_value(st, x.cell(), x.value);
    } else {
        set_cell(st, n, x);
    }
}

// Applies the marks in order, without propagation between them.
pub fn apply_marks(st: &mut [u16], n: usize, bytes: &[u8])
    requires { MarksAsk n st.old bytes.now }
    ensures { MarksApplied n st.old st.new (marks_of bytes.now) }
{
    for i in 0..mark_count(bytes.len()) {
        apply_mark(st, n, mark_at(bytes, i));
    }
}
