// A reader that is kept for a file: what its making and the reads through it end in. The definitions stand in specs/, and the theorems in proofs/.
#![tactic(auto)]
