// The size of a grid, and its greatest target (in the Rust: max_target).
#![tactic(auto)]

ghost use Rattle.std.specs.Prelude.{◌≡◌, is_some, IfSome};
ghost use Rattle.rules.specs.Check.{max_target};
ghost use Rattle.rules.specs.CheckParts.{size_fits};
ghost use Rattle.rules.specs.Size.{Size};

// A size from 2 to 9: whoever has one need not ask again.
#[derive(Clone, Copy)]
pub struct GridSize {
    pub n: usize,
    pub ghost fits: { Size n },
}

impl GridSize {
    // The size n, if it is one.
    pub fn try_new(n: usize) -> Option<GridSize>
        ensures made { is_some result ≡ size_fits n }
        ensures is { IfSome result (λ size. size.n ≡ n) }
    {
        if (2..=9).contains(&n) {
            Some(GridSize { n })
        } else {
            None
        }
    }

    // The greatest target.
    pub fn max_target(self) -> usize
        ensures { result ≡ max_target self.n }
    {
        (self.n - 2) * (self.n - 1) / 2
    }
}
