// Nothing to run: the crate holds the laws of lines and arrangements, in proofs/, and the few definitions that other crates cite, in specs/.
#![tactic(auto)]
