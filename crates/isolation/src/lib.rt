// What holds of every sequence of dispatcher calls from fresh tables: definitions and theorems, no functions.
#![tactic(auto)]
