// Why a call is refused.
#![tactic(auto)]

ghost use Rattle.std.specs.Prelude.{◌≡◌};
ghost use Rattle.refusal.specs.Number.{refusal_number, number_of};

// The checks that an input may fail (docs/INTERFACE.md has each in a sentence).
#[derive(Clone, Copy, Debug, PartialEq, Eq)]
pub enum Refusal {
    Size = 1,
    TargetLengths = 2,
    Target = 3,
    MarkSpare = 4,
    MarkPlace = 5,
    MarkValue = 6,
    CellsLength = 7,
    Blacks = 8,
    EmptyCell = 9,
    Sum = 10,
    TextLine = 11,
    SizeLimit = 18,
    ListLimit = 19,
}

impl Refusal {
    // The number by which hosts know it, by `as`: the library has no From for an enum's number.
    pub fn number(self) -> u8
        ensures { result ≡ refusal_number self }
    {
        self as u8
    }
}

// The number of the answer to a call that gives nothing else: 0 where nothing is refused.
pub fn number_of(answer: Result<(), Refusal>) -> u8
    ensures { result ≡ number_of answer }
{
    match answer {
        Ok(()) => 0,
        Err(refusal) => refusal.number(),
    }
}
