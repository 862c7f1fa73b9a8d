// What nets, half spaces and verdicts are stands in specs/, and what follows from it in proofs/.
#![tactic(auto)]
