// Arrangements of a line by number, and each of them packed into one word (in the Rust: the arrangements of QueueSolver, with their cells and patterns).
// An arrangement has the number subset * 9 + start, by which it stands in the lists of the state. A word has its set of digits in bits 0 to 7 (digit d is
// bit d), its inner places in bits 8 to 16, the places of the line's first and second black in bits 17 to 20 and 21 to 24, and bit 25 if it begins with the
// second one, around the line's end.
#![tactic(auto)]

ghost use Rattle.std.specs.Prelude.{◌≡◌, ◌+◌, ◌≤◌, ◌<◌, length, eqb, not};
ghost use Rattle.words.specs.Word.{set_of, inner_of, first_of, second_of, outside_of, from_of, to_of, head_of, last_of, shift_of};
ghost use Rattle.words.specs.Word.{inner_places, word_from, Words};
ghost use Rattle.words.specs.Fill.{FillAsk, WordsFilled};

use grid_size::GridSize;
use subset_table::{Subset, from_sum};

// How many words there are room for: nine places at which each subset starts.
pub const ROOM: usize = 128 * 9;

// The set of digits. By `as` here and below: a part of a word is proved to fit, and the library has no From into fewer bits.
pub fn set_of(w: u32) -> u16
    ensures { result ≡ set_of w }
{
    (w % 256) as u16
}

// The inner places.
pub fn inner_of(w: u32) -> u16
    ensures { result ≡ inner_of w }
{
    (w / 256 % 512) as u16
}

// The place of the line's first black, and of its second. By name, as are the ends below: one function would take which of the two is meant, and ask it.
// An arrangement has a head, as in the Rust: its strikes go from there, and their order with them.
pub fn first_of(w: u32) -> usize
    ensures { result ≡ first_of w }
{
    (w / 131072 % 16) as usize
}

pub fn second_of(w: u32) -> usize
    ensures { result ≡ second_of w }
{
    (w / 2097152 % 16) as usize
}

// Whether it begins with the second black, around the line's end.
fn begins_with_second(w: u32) -> bool
    ensures { result ≡ not (eqb (outside_of w) 0) }
{
    w / 33554432 != 0
}

// Where it begins, and where it ends.
#[tactic(auto, unfolding(crate::specs::Word::from_of))]
pub fn from_of(w: u32) -> usize
    ensures { result ≡ from_of w }
{
    if begins_with_second(w) {
        second_of(w)
    } else {
        first_of(w)
    }
}

#[tactic(auto, unfolding(crate::specs::Word::to_of))]
pub fn to_of(w: u32) -> usize
    ensures { result ≡ to_of w }
{
    if begins_with_second(w) {
        first_of(w)
    } else {
        second_of(w)
    }
}

// The black with which it begins, and with which it ends, in a line whose first black is k.
#[tactic(auto, unfolding(crate::specs::Word::head_of))]
pub fn head_of(w: u32, k: usize) -> usize
    requires { k < 16 }
    ensures { result ≡ head_of k w }
{
    if begins_with_second(w) { k + 1 } else { k }
}

#[tactic(auto, unfolding(crate::specs::Word::last_of))]
pub fn last_of(w: u32, k: usize) -> usize
    requires { k < 16 }
    ensures { result ≡ last_of k w }
{
    if begins_with_second(w) { k } else { k + 1 }
}

// Where the place of a black begins in a word.
#[tactic(auto, unfolding(crate::specs::Word::shift_of))]
pub fn black_shift(first: usize, v: usize) -> u32
    ensures { result ≡ shift_of first v }
{
    if v == first { 17 } else { 21 }
}

// The places between the ends. The size, the length and the start go one by one: they meet here, in `word` and in listing alone.
fn inner_places(size: GridSize, len: usize, start: usize) -> u32
    requires { (len + 2 ≤ size.n) × (start < size.n) }
    ensures are { result ≡ inner_places size.n len start }
    ensures small { result < 512 }
{
    let run = ((1u32 << len) - 1) << (start + 1);
    run % (1u32 << size.n) + (run >> size.n)
}

// The word of a set of len digits from a start on.
#[tactic(auto, unfolding(crate::specs::Word::word_from))]
fn word(size: GridSize, set: u32, len: usize, start: usize) -> u32
    requires { (set < 256) × (len + 2 ≤ size.n) × (start < size.n) }
    ensures { result ≡ word_from size.n set len start }
{
    let inner = inner_places(size, len, start);
    let end = start + len + 1;
    if end < size.n {
        set + inner * 256 + (start as u32) * 131072 + (end as u32) * 2097152
    } else {
        set + inner * 256 + ((end - size.n) as u32) * 131072 + (start as u32) * 2097152 + 33554432
    }
}

// The words of subset s: one for each start.
fn fill_starts(words: &mut [u32], size: GridSize, s: usize)
    requires { FillAsk size.n s words.old }
    ensures { WordsFilled size.n s words.old words.new }
{
    let subset = Subset::numbered(s);
    let set = u32::from(subset.mask);
    let len = usize::from(subset.size);
    for start in 0..size.n {
        words[s * 9 + start] = word(size, set, len, start);
    }
}

// The words of all arrangements of a size.
pub fn fill_words(words: &mut [u32], size: GridSize)
    requires { length words.old ≡ 1152 }
    ensures { Words size.n words.new }
{
    // All digits of the size have the greatest sum, and no subset of them stands behind.
    for s in 0..from_sum(size.max_target() + 1) {
        if Subset::numbered(s).is_of_size(size) {
            fill_starts(words, size, s);
        }
    }
}
