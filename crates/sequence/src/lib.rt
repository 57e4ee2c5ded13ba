// The sequences that must come out exact, unsigned, signed and decimal: their lists of words are in specs/, that they do is in proofs/.
#![tactic(auto)]
