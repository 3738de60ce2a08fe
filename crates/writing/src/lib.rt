// The file that is written is spelled by its records, and edits keep records sound; the proofs are in proofs/.

#![tactic(auto)]
