// The counts of a cache tree, tested by the entries in their order: the definitions are in specs/, the laws in proofs/.

#![tactic(auto)]
