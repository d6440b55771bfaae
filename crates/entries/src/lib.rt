// What holds of all entries on rows together, whatever the layout that rows are lent in: definitions and laws, no function.
#![tactic(auto)]
