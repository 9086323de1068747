// Darts, walks and loops over numbered crossings: definitions in specs/, laws in proofs/.
#![tactic(auto)]
