// The demands on the library, stated and proved in proofs/.

#![tactic(auto)]
