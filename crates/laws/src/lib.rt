// Definitions and laws that speak of no task. No functions: see specs/ and proofs/.
#![tactic(auto)]
