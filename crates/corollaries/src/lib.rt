// Nothing to run: what the laws of the number say of the answers of Count, Solve and marking, in specs/.
#![tactic(auto)]
