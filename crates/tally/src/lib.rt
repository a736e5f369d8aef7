// The holds of a channel and the slots that hold its send id: definitions and theorems, no functions.
#![tactic(auto)]
