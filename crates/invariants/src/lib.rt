// Nothing to run: the crate says what holds of the solver's state between steps, in specs/, and the laws of it, in proofs/.
#![tactic(auto)]
