// The live arrangements of each line and their supports, before any strike (in the Rust: init_live_tuples).
#![tactic(auto)]

ghost use Rattle.std.specs.Prelude.{◌≡◌, ◌∷◌, [], ℕ, ◌+◌, ◌≤◌, ◌<◌};
ghost use Rattle.rules.specs.Check.{max_target};
ghost use Rattle.subset_table.specs.Subsets.{size_in};
ghost use Rattle.words.specs.Word.{part, Known};
ghost use Rattle.listing.specs.Numbers.{starts_from, side_of, numbers_for};
ghost use Rattle.listing.specs.Sides.{is_outside, StartsAre};
ghost use Rattle.listing.specs.Listing.{Raised, one_at, digits_at, inner_at, RaiseAsk, WordAsk, Added, AddAsk, StartsAsk, LinesListed};
ghost use Rattle.fresh.specs.Fresh.{Fresh};

use arrangements::{ArrangedLane, Arrangement, Arrangements};
use lane::Lane;
use puzzle::Puzzle;
use queue_state::Slab;
use std::ops::Range;
use subset_table::{Subset, from_sum};
use value::Bits;
use words::{first_of, inner_of, second_of, set_of};

// One more arrangement has the value v at place p of a line.
fn raise_support(st: &mut [u16], lane: Lane, p: usize, v: usize)
    requires { RaiseAsk lane.number p v st.old }
    ensures { Raised lane.number st.old st.new (one_at p v) }
{
    st[Slab::SUPPORT + (lane.number * 9 + p) * 16 + v] += 1;
}

// One more arrangement has the digits of a set at place p of a line.
fn add_digits(st: &mut [u16], lane: Lane, p: usize, set: u16)
    requires { (v : ℕ) → v < 16 → RaiseAsk lane.number p v st.old }
    ensures { Raised lane.number st.old st.new (digits_at p set) }
{
    for v in (Bits { rest: set }) {
        raise_support(st, lane, p, v);
    }
}

// One more arrangement has its digits at its inner places.
fn add_inner(st: &mut [u16], a: Arrangement)
    requires { (p v : ℕ) → p < 9 → v < 16 → RaiseAsk a.lane.number p v st.old }
    ensures { Raised a.lane.number st.old st.new (inner_at a.word) }
{
    let set = set_of(a.word);
    for p in (Bits {
        rest: inner_of(a.word),
    }) {
        add_digits(st, a.lane, p, set);
    }
}

// One more arrangement of a line has its pattern.
fn add_support(st: &mut [u16], a: Arrangement)
    requires { WordAsk a.lane a.word st.old }
    ensures { Raised a.lane.number st.old st.new (part a.lane.first a.word) }
{
    raise_support(st, a.lane, first_of(a.word), a.lane.first);
    raise_support(st, a.lane, second_of(a.word), a.lane.first + 1);
    add_inner(st, a);
}

// An arrangement joins a line's list.
fn add_arrangement(st: &mut [u16], arranged: ArrangedLane, id: usize)
    requires { AddAsk arranged.lane st.old (id ∷ []) × Known arranged.lane.len id }
    ensures { Added arranged.entry.lane.len arranged.entry.lane.number st.old st.new (id ∷ []) }
{
    let lane = arranged.lane;
    let k = usize::from(st[Slab::LENGTHS + lane.number]);
    st[Slab::LIVE + lane.number * Slab::PER_LINE + k] = id as u16;
    st[Slab::LENGTHS + lane.number] = (k + 1) as u16;
    let word = arranged.word(id);
    add_support(st, Arrangement { lane, word });
}

// The arrangements inside a line, or those that go around its end.
#[derive(Clone, Copy)]
enum Side {
    Inside,
    Outside,
}

impl Side {
    // Where its arrangements with len digits start: those inside end within the line, and the others start behind them.
    #[tactic(auto, unfolding(words::specs::Word::on_side))]
    fn starts(self, n: usize, len: usize) -> Range<usize>
        requires { len + 2 ≤ n }
        ensures { StartsAre n len (is_outside self) result }
    {
        let split = n - len - 1;
        match self {
            Side::Inside => 0..split,
            Side::Outside => split..n,
        }
    }
}

// The arrangements of subset s from each start of one side.
fn list_starts(st: &mut [u16], arranged: ArrangedLane, side: Side, s: usize)
    requires { AddAsk arranged.lane st.old (starts_from arranged.lane.len (is_outside side) s (size_in s) 0)
        × StartsAsk arranged.lane.len s (size_in s) }
    ensures { Added arranged.entry.lane.len arranged.entry.lane.number st.old st.new (starts_from arranged.entry.lane.len (is_outside side) s (size_in s) 0) }
{
    let len = usize::from(Subset::numbered(s).size);
    for start in side.starts(arranged.lane.len, len) {
        add_arrangement(st, arranged, s * 9 + start);
    }
}

// The arrangements of one side whose digits have the sum that is wanted.
fn list_side(st: &mut [u16], arranged: ArrangedLane, side: Side, want: usize)
    requires { AddAsk arranged.lane st.old (side_of arranged.lane.len (is_outside side) want) × (want < 29) }
    ensures { Added arranged.entry.lane.len arranged.entry.lane.number st.old st.new (side_of arranged.entry.lane.len (is_outside side) want) }
{
    for s in from_sum(want)..from_sum(want + 1) {
        if Subset::numbered(s).is_of_size(arranged.size()) {
            list_starts(st, arranged, side, s);
        }
    }
}

// The arrangements of a line with a target: the inside ones have its sum, the outside ones leave it.
fn list_line(st: &mut [u16], arranged: ArrangedLane, target: usize)
    requires { AddAsk arranged.lane st.old (numbers_for arranged.lane.len target) × (target ≤ max_target arranged.lane.len) }
    ensures { Added arranged.entry.lane.len arranged.entry.lane.number st.old st.new (numbers_for arranged.entry.lane.len target) }
{
    let other = arranged.size().max_target() - target;
    list_side(st, arranged, Side::Inside, target);
    list_side(st, arranged, Side::Outside, other);
}

// Every line lists the arrangements of its target.
pub fn list_arrangements(st: &mut [u16], arrangements: Arrangements, p: Puzzle)
    requires { Fresh p.size.n st.old × (arrangements.size.n ≡ p.size.n) }
    ensures { LinesListed p.entry.size.n p.entry.rows.now p.entry.columns.now st.old st.new }
{
    let n = p.size.n;
    for i in 0..n {
        list_line(st, arrangements.row(i), usize::from(p.rows[i]));
        list_line(st, arrangements.column(i), usize::from(p.columns[i]));
    }
}
