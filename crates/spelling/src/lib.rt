// A file is accepted exactly when records spell it; the proofs are in proofs/.

#![tactic(auto)]
