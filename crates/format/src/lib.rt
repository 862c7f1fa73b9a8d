// What the bytes of a sheet mean stands in specs/, and what follows from it in proofs/.
#![tactic(auto)]
