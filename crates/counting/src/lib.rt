// Searches, sums and lists over a range of numbers, with their laws: definitions in specs/, laws in proofs/.
#![tactic(auto)]
