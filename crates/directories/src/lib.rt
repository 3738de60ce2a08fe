// Names in order, and those of one directory: the definitions are in specs/, the laws in proofs/.

#![tactic(auto)]
