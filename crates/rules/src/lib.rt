// Nothing to run: the crate holds the rules of the puzzle as definitions, in specs/, and the first laws of them, in proofs/.
#![tactic(auto)]
