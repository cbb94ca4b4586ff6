// Opening: every line lists its arrangements, then the candidates without support are struck (in the Rust: seed_queue).
#![tactic(auto)]

ghost use Rattle.std.specs.Prelude.{◌≡◌, ◌+◌, ◌*◌, ◌<◌, length};
ghost use Rattle.queue_state.specs.Layout.{slab_size};
ghost use Rattle.queue_state.specs.Slab.{Sized, Struck};
ghost use Rattle.fresh.specs.Fresh.{Fresh};
ghost use Rattle.opening.specs.Opening.{Lacks, BareCell, BareIn, BareTo, Opened};

use arrangements::Arrangements;
use grid_size::GridSize;
use listing::list_arrangements;
use puzzle::Puzzle;
use queue_state::{Slab, clear_mask};
use value::Value;

// The values that no live arrangement of a line has at place p, as a mask.
#[tactic(auto, using(crate::proofs::SeedLaws::lacks_start, crate::proofs::SeedLaws::lacks_more, crate::proofs::SeedLaws::lacks_same))]
fn unsupported(st: &[u16], line: usize, p: usize) -> u16
    requires { (length st.now ≡ slab_size) × (line < 18) × (p < 9) }
    ensures { Lacks st.now (line * 9 + p) 12 result }
{
    let mut m = 0u16;
    for v in 0..12 {
        if st[Slab::SUPPORT + (line * 9 + p) * 16 + v] == 0 {
            m |= 1u16 << v;
        }
    }
    m
}

// The bits below those of the blacks: the digits, and bit 0, which no cell has.
const LOW: u16 = Value::DIGITS + 1;

// Strikes the candidates of a cell that have no support: blacks go by their own line, digits by both.
fn seed_cell(st: &mut [u16], r: usize, c: usize)
    requires { Sized st.old × (r < 9) × (c < 9) }
    ensures { Struck st.old st.new (BareCell st.old (r * 9 + c)) }
{
    let a = unsupported(st, r, c);
    let b = unsupported(st, 9 + c, r);
    clear_mask(
        st,
        r * 9 + c,
        (a & Value::ROW_BLACKS) | (b & Value::COL_BLACKS) | ((a | b) & LOW),
    );
}

fn seed_row(st: &mut [u16], size: GridSize, r: usize)
    requires { Sized st.old × (r < 9) }
    ensures { Struck st.old st.new (BareIn st.old r size.n) }
{
    for c in 0..size.n {
        seed_cell(st, r, c);
    }
}

// The same of every cell, row by row.
fn seed_queue(st: &mut [u16], size: GridSize)
    requires { Sized st.old }
    ensures { Struck st.old st.new (BareTo st.old size.n size.n) }
{
    for r in 0..size.n {
        seed_row(st, size, r);
    }
}

// The state of a puzzle before anything is propagated.
pub fn open(st: &mut [u16], arrangements: Arrangements, p: Puzzle)
    requires { Fresh p.size.n st.old × (arrangements.size.n ≡ p.size.n) }
    ensures { Opened p.entry.size.n p.entry.rows.now p.entry.columns.now st.old st.new }
{
    list_arrangements(st, arrangements, p);
    seed_queue(st, p.size);
}
