// Nothing to run: the crate holds the laws of the number of grids, in specs/.
#![tactic(auto)]
