// Nothing to run: the crate holds the laws of the order of grids, in proofs/, and the few definitions that other crates cite, in specs/.
#![tactic(auto)]
