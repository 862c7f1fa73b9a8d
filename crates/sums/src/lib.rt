// Sums of counts, and of coefficients times counts, for the specifications and proofs of the crates above: all of it stands in specs/ and proofs/.
#![tactic(auto)]
