// Laws of the format's definitions that several crates cite: the laws are in proofs/.

#![tactic(auto)]
