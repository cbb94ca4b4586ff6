// A copy of the state, made at each branch of the search (in the Rust: the clone of QueueSolverState).
// Called once for each branch of the search: the whole state, 12 KB, some 300 ns. A crate of its own over the library's function, so that a wrong copy is
// refused here in a second and not in the search.
#![tactic(auto)]

ghost use Rattle.std.specs.Prelude.{◌≡◌, length};

pub fn copy(from: &[u16], to: &mut [u16])
    requires { length to.old ≡ length from.now }
    ensures { to.new ≡ from.now }
{
    to.copy_from_slice(from);
}
