// Demand 3: one theorem about whole histories, over the contracts of the entries. Nothing here runs: what is claimed stands in specs/, the theorem and its laws in proofs/.

#![tactic(auto)]
