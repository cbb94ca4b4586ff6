// The solver's state where it is only read. What changes it asks in its contract what it needs (crates/queue_state); between changes a type can say it. What
// reads it in the midst of a change (a place of it in arcs, opening and singles) asks for the slice's length alone.
#![tactic(auto)]

ghost use Rattle.std.specs.Prelude.{◌≡◌, ◌<◌, get_or};
ghost use Rattle.queue_state.specs.Ready.{Ready};
ghost use Rattle.state_view.specs.OneProof.{ready_prop};

// A state that is read, with its size: whoever has one need not ask that it is the state of that size.
#[derive(Clone, Copy)]
pub struct StateView<'a> {
    pub st: &'a [u16],
    pub n: usize,
    pub ghost ready: { Ready n st.now } by { ready_prop n st.now },
}

impl<'a> StateView<'a> {
    // The mask of a cell's candidates.
    pub fn candidates(self, cell: usize) -> u16
        requires { cell < 81 }
        ensures { result ≡ get_or self.entry.st.now cell 0 }
    {
        self.st[cell]
    }
}
