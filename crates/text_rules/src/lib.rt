// Nothing to run: the crate holds what a line of `sheet` means and what it is answered by, as definitions, in specs/.
#![tactic(auto)]
