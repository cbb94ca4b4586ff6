// Nothing to run: the crate holds definitions on lists, in specs/, and their laws, in proofs/.
#![tactic(auto)]
