// The search (in the Rust: backtrack.rs). It calls itself on the branch that takes a candidate, so that it is at most n * n deep, and goes on in a loop
// on the branch that rejects it: no range says how often, so the loop is a `while`.
#![tactic(auto)]

ghost use Rattle.std.specs.Prelude.{◌≡◌, ◌&&◌, eqb, length};
ghost use Rattle.invariants.specs.State.{Lagging};
ghost use Rattle.backtrack.specs.Search.{Advanced, SearchAsk, Searched, SettleAsk, settled_cells};

use arrangements::Arrangements;
use copy::copy;
use pick::pick_branch;
use propagate::propagate;
use queue_state::{Slab, clear_value};
use set_cell::set_cell;
use state_view::StateView;
use value::Candidate;
use written::write_grid;

// What a step forward found: no grid, one, or a candidate to branch on. Three cases by their names, and no Option in a Result, which would name two of them.
#[derive(Clone, Copy, Debug, PartialEq, Eq)]
pub enum Next {
    Contradicted,
    Settled,
    Branch(Candidate),
}

// Propagates; then the candidate to branch on, if there is a choice.
fn advance(st: &mut [u16], arrangements: Arrangements) -> Next
    requires { Lagging arrangements.size.n st.old 0 }
    ensures { Advanced arrangements.entry.size.n st.old st.new result }
{
    if propagate(st, arrangements).is_err() {
        return Next::Contradicted;
    }
    match pick_branch(StateView {
        st,
        n: arrangements.size.n,
    }) {
        Some(x) => Next::Branch(x),
        None => Next::Settled,
    }
}

// Whether the next grid is the first, and it is wanted.
fn is_first(wanted: bool, found: u64) -> bool
    ensures { result ≡ (wanted && eqb found 0) }
{
    wanted && found == 0
}

// The grid of a settled table is written if it is wanted. The view is made here: made in `search`, which calls itself, it costs Count up to half as many
// instructions again (tried).
fn settle(st: &[u16], n: usize, wanted: bool, cells: &mut [u8])
    requires { SettleAsk n st.now wanted (length cells.old) }
    ensures { cells.new ≡ settled_cells n st.now wanted cells.old }
{
    if wanted {
        write_grid(StateView { st, n }, cells);
    }
}

// The number of grids that fit, at most max; the first in the order of grids is written to cells if it is wanted. No Option of the cells: what one points at
// afterwards is, in a contract, a sum over its variants (tried), and the flag says it in a word.
pub fn search(
    st: &mut [u16],
    arrangements: Arrangements,
    max: u64,
    wanted: bool,
    cells: &mut [u8],
) -> u64
    requires { SearchAsk arrangements.size.n st.old wanted (length cells.old) }
    ensures { Searched arrangements.entry.size.n st.old max wanted result cells.old cells.new }
{
    let n = arrangements.size.n;
    let mut found = 0u64;
    while found < max {
        let first = is_first(wanted, found);
        match advance(st, arrangements) {
            Next::Contradicted => return found,
            Next::Settled => {
                settle(st, n, first, cells);
                return found + 1;
            }
            Next::Branch(x) => {
                // Not cleared in the program: the compiler sees that the copy writes it whole.
                let mut other = [0u16; Slab::SIZE];
                copy(st, &mut other);
                set_cell(&mut other, n, x);
                found += search(&mut other, arrangements, max - found, first, cells);
                clear_value(st, x.cell(), x.value);
            }
        }
    }
    found
}
