// Nothing to run: the crate holds the definitions of candidate tables, in specs/, and facts about them, in proofs/.
#![tactic(auto)]
