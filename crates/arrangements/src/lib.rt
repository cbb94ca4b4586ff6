// The words of all arrangements of a size in a lent slice, a line with them, and one of its arrangements.
#![tactic(auto)]

ghost use Rattle.std.specs.Prelude.{◌≡◌, ◌%◌, ◌<◌};
ghost use Rattle.rules.specs.Size.{Size};
ghost use Rattle.lane.specs.Rows.{RowLane, ColumnLane};
ghost use Rattle.words.specs.Word.{Words, Known, Shaped, word_of};

use grid_size::GridSize;
use lane::Lane;

// The words of all arrangements of a size, as `fill_words` leaves them: whoever has them need not ask that they are there.
#[derive(Clone, Copy)]
pub struct Arrangements<'a> {
    pub size: GridSize,
    pub words: &'a [u32],
    pub ghost filled: { Words size.n words.now },
}

impl<'a> Arrangements<'a> {
    // A row of a grid of that size, and a column: each a function of its own, as those of `Lane`.
    pub fn row(self, r: usize) -> ArrangedLane<'a>
        requires { r < self.size.n }
        ensures { RowLane self.entry.size.n r result.lane }
    {
        ArrangedLane {
            lane: Lane::row(self.size.n, r),
            words: self.words,
        }
    }

    pub fn column(self, c: usize) -> ArrangedLane<'a>
        requires { c < self.size.n }
        ensures { ColumnLane self.entry.size.n c result.lane }
    {
        ArrangedLane {
            lane: Lane::column(self.size.n, c),
            words: self.words,
        }
    }
}

// A row or a column of a grid, with the words of the arrangements of its size.
#[derive(Clone, Copy)]
pub struct ArrangedLane<'a> {
    pub lane: Lane,
    pub words: &'a [u32],
    pub ghost fits: { Size lane.len },
    pub ghost among: { lane.number % 9 < lane.len },
    pub ghost filled: { Words lane.len words.now },
}

impl<'a> ArrangedLane<'a> {
    // The size of its grid.
    pub fn size(self) -> GridSize
        ensures { result.n ≡ self.entry.lane.len }
    {
        GridSize { n: self.lane.len }
    }

    // The word of an arrangement, by its number.
    pub fn word(self, id: usize) -> u32
        requires { id < 1152 }
        ensures { Known self.entry.lane.len id → result ≡ word_of self.entry.lane.len id }
    {
        self.words[id]
    }
}

// An arrangement of a line, by its word.
#[derive(Clone, Copy)]
pub struct Arrangement {
    pub lane: Lane,
    pub word: u32,
    pub ghost fits: { Size lane.len },
    pub ghost shaped: { Shaped lane.len word },
}
