// What a result sheet and the whole answer to a sheet's bytes say, and what follows from it: definitions and laws, no function.
#![tactic(auto)]
