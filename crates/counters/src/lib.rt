// Nothing to run: the crate holds the solver's counters as definitions in specs/, and their laws in proofs/.
#![tactic(auto)]
