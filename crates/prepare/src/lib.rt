// The state of a puzzle after its marks: opened, propagated once as the Rust's constructor does, and marked.
#![tactic(auto)]

ghost use Rattle.std.specs.Prelude.{◌≡◌, is_ok, length};
ghost use Rattle.rules.specs.Mark.{marks_of};
ghost use Rattle.rules.specs.Check.{refusal};
ghost use Rattle.rules.specs.CheckParts.{mark_checks};
ghost use Rattle.puzzle.specs.Stands.{puzzle_of};
ghost use Rattle.words.specs.Word.{Words};
ghost use Rattle.fresh.specs.Fresh.{Blank};
ghost use Rattle.prepare.specs.Prepared.{Prepared};

use apply_marks::apply_marks;
use arrangements::Arrangements;
use fresh::fresh;
use opening::open;
use propagate::{Contradicted, propagate};
use puzzle::Puzzle;
use words::fill_words;

// A puzzle and its marks that passed the checks of a unit, whichever it is.
#[derive(Clone, Copy)]
pub struct Question<'a> {
    pub puzzle: Puzzle<'a>,
    pub marks: &'a [u8],
    pub ghost marks_pass: { refusal (mark_checks puzzle.size.n (marks_of marks.now)) ≡ 0 },
}

// The state of a question, unless a cell is left without candidates before the marks, so that no grid is left. The words are filled either way.
pub fn prepare(st: &mut [u16], words: &mut [u32], q: Question) -> Result<(), Contradicted>
    requires { (length words.old ≡ 1152) × Blank st.old }
    ensures filled { Words q.entry.puzzle.size.n words.new }
    ensures state { Prepared (puzzle_of q.entry.puzzle) (marks_of q.entry.marks.now) st.new (is_ok result) }
{
    let size = q.puzzle.size;
    fill_words(words, size);
    let arrangements = Arrangements { size, words };
    fresh(st, size);
    open(st, arrangements, q.puzzle);
    propagate(st, arrangements)?;
    apply_marks(st, size.n, q.marks);
    Ok(())
}
