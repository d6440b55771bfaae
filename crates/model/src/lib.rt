// What the task sheets, the tests and the engines mean. No functions: see specs/ and proofs/.
#![tactic(auto)]
