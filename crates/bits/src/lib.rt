// Nothing to run: the crate holds single bits and sums as definitions in specs/, and their laws in proofs/.
#![tactic(auto)]
