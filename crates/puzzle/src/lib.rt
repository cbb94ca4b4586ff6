// The checks of a puzzle: its size, the unit's limit, the lengths of its target slices, its targets (in the Rust: Puzzle::try_new).
#![tactic(auto)]

ghost use Rattle.std.specs.Prelude.{◌≡◌, [], ◌∷◌, leb};
ghost use Rattle.tally.specs.Tally.{all};
ghost use Rattle.rules.specs.Check.{check_size, check_unit_size, puzzle_checks};
ghost use Rattle.rules.specs.CheckParts.{targets_fit};
ghost use Rattle.rules.specs.Grid.{puzzle};
ghost use Rattle.puzzle.specs.Accepted.{AcceptedPuzzle, Passed};

use grid_size::GridSize;
use refusal::Refusal;
use units::Unit;

// A puzzle that passed the checks of a unit, whichever it is.
#[derive(Clone, Copy)]
pub struct Puzzle<'a> {
    pub size: GridSize,
    pub rows: &'a [u8],
    pub columns: &'a [u8],
    pub ghost accepted: { AcceptedPuzzle (puzzle size.n rows.now columns.now) },
}

impl<'a> Puzzle<'a> {
    // The puzzle, if it passes the checks of a unit.
    pub fn try_new(
        unit: Unit,
        n: usize,
        rows: &'a [u8],
        columns: &'a [u8],
    ) -> Result<Puzzle<'a>, Refusal>
        ensures { Passed (puzzle_checks unit (puzzle n rows.now columns.now))
            (λ p. puzzle p.size.n p.rows.now p.columns.now ≡ puzzle n rows.now columns.now) result }
    {
        let size = check_size(unit, n)?;
        if !targets_fit(n, rows.len(), columns.len()) {
            return Err(Refusal::TargetLengths);
        }
        let limit = size.max_target();
        if !all_within(limit, rows) {
            return Err(Refusal::Target);
        }
        if !all_within(limit, columns) {
            return Err(Refusal::Target);
        }
        Ok(Puzzle {
            size,
            rows,
            columns,
        })
    }
}

// The size n, if it is one and the unit takes it.
pub fn check_size(unit: Unit, n: usize) -> Result<GridSize, Refusal>
    ensures { Passed (check_size n ∷ check_unit_size unit n ∷ []) (λ size. size.n ≡ n) result }
{
    let Some(size) = GridSize::try_new(n) else {
        return Err(Refusal::Size);
    };
    if !unit.takes_size(n) {
        return Err(Refusal::SizeLimit);
    }
    Ok(size)
}

pub fn targets_fit(n: usize, rows: usize, columns: usize) -> bool
    ensures { result ≡ targets_fit n rows columns }
{
    rows == n && columns == n
}

fn all_within(limit: usize, targets: &[u8]) -> bool
    ensures { result ≡ all (λ t. leb t limit) targets.now }
{
    targets.iter().all(|t| usize::from(*t) <= limit)
}
