// Units: the hall and the classrooms, each with its limits.
#![tactic(auto)]

ghost use Rattle.std.specs.Prelude.{◌≡◌};
ghost use Rattle.units.specs.Limits.{hall, classroom, takes_size, takes_list, list_limit};

// A unit: the greatest size that it takes, and how many marks a list may have, where it has a limit for lists.
#[derive(Clone, Copy, Debug, PartialEq, Eq)]
pub struct Unit {
    pub greatest: usize,
    pub longest: Option<usize>,
}

impl Unit {
    // Takes sizes up to 9 and any list. A function for each unit, so that its limits are tied to the definition here.
    pub fn hall() -> Unit
        ensures { result ≡ hall }
    {
        Unit {
            greatest: 9,
            longest: None,
        }
    }

    // Takes sizes up to 6 and lists of at most 40 marks.
    pub fn classroom() -> Unit
        ensures { result ≡ classroom }
    {
        Unit {
            greatest: 6,
            longest: Some(40),
        }
    }

    pub fn takes_size(self, n: usize) -> bool
        ensures { result ≡ takes_size self n }
    {
        n <= self.greatest
    }

    // The unit takes a list of this many marks.
    pub fn takes_list(self, marks: usize) -> bool
        ensures { result ≡ takes_list self marks }
    {
        self.longest.is_none_or(|most| marks <= most)
    }

    // The greatest size, as a host may ask for it.
    pub fn size_limit(self) -> usize
        ensures { result ≡ self.greatest }
    {
        self.greatest
    }

    // The limit for lists as a number, for hosts: the greatest of all where there is none.
    pub fn list_limit(self) -> usize
        ensures { result ≡ list_limit self }
    {
        self.longest.unwrap_or(usize::MAX)
    }
}
