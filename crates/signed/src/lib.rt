// Laws of signed numbers, for the proofs of the crates above, and what two's complement means: all of it stands in specs/.
#![tactic(auto)]
