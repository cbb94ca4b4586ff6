// The live list of a line as records that are reordered where they are. Only this crate lends records: callers lend numbers.
#![tactic(auto)]

ghost use Rattle.std.specs.Prelude.{◌≡◌, ◌+◌, ◌<◌, ◌≤◌, length};
ghost use Rattle.live_list.specs.Swap.{swapped, exchanged};

// A place of a line's live list: the arrangement that stands there.
#[derive(Clone, Copy)]
pub struct Place {
    pub arrangement: u16,
}

// The record at i changes places with the last one, at len: it stands behind the len that are left, and nothing else moves.
pub fn swap_remove(places: &mut [Place], i: usize, len: usize)
    requires { (i ≤ len) × (len < length places.old) }
    ensures { places.new ≡ swapped places.old i len }
{
    places.swap(i, len);
}

// The list begins at `at`: its arrangement i leaves, the last one takes its place, and len are left.
// The state is numbers, so the two places that change are lent as records (docs/DECISIONS.md, 17).
pub fn remove(st: &mut [u16], at: usize, i: usize, len: usize)
    requires { (i ≤ len) × (at + len < length st.old) }
    ensures { st.new ≡ exchanged st.old (at + i) (at + len) }
{
    let mut two = [
        Place {
            arrangement: st[at + i],
        },
        Place {
            arrangement: st[at + len],
        },
    ];
    swap_remove(&mut two, 0, 1);
    st[at + i] = two[0].arrangement;
    st[at + len] = two[1].arrangement;
}
