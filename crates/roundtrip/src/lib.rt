// A sheet listed and read again is the same bytes, and a text read and listed again is its listing: the theorems are in proofs/.
#![tactic(auto)]
