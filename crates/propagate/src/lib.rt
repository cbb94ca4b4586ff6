// Propagation (in the Rust: run and its handlers): the strikes are handled in the order in which they were made, until none waits or a cell is empty.
#![tactic(auto)]

ghost use Rattle.std.specs.Prelude.{is_ok};
ghost use Rattle.invariants.specs.State.{Lagging, Propagated};
ghost use Rattle.propagate.specs.Update.{UpdateAsk, UpdateDone};

use arcs::update_arc;
use arrangements::Arrangements;
use queue_state::Slab;
use singles::{update_black_consistency, update_hidden_singles, update_singleton};
use value::Candidate;

// A cell is left without candidates.
#[derive(Clone, Copy, Debug, PartialEq, Eq)]
pub struct Contradicted;

// All handlers of a strike.
fn update(st: &mut [u16], arrangements: Arrangements, x: Candidate)
    requires { UpdateAsk arrangements.size.n st.old x.row x.column x.value }
    ensures { UpdateDone arrangements.entry.size.n st.old st.new x.row x.column x.value }
{
    let n = arrangements.size.n;
    update_singleton(st, n, x);
    update_hidden_singles(st, n, x);
    update_black_consistency(st, n, x);
    update_arc(st, arrangements, x);
}

// Propagates until no strike waits, unless a cell is left without candidates. The queue grows while it is handled, so that no range says its end: a `while`.
pub fn propagate(st: &mut [u16], arrangements: Arrangements) -> Result<(), Contradicted>
    requires { Lagging arrangements.size.n st.old 0 }
    ensures { Propagated arrangements.entry.size.n st.old st.new (is_ok result) }
{
    let mut head = 0;
    while head < usize::from(st[Slab::TAIL]) {
        let strike = usize::from(st[Slab::QUEUE + head]);
        let cell = strike / 16;
        if st[cell] == 0 {
            return Err(Contradicted);
        }
        update(st, arrangements, Candidate::at(cell, strike % 16));
        head += 1;
    }
    st[Slab::TAIL] = 0;
    Ok(())
}
