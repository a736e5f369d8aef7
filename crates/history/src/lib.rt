// What holds of every sequence of calls from one fresh channel table: definitions and theorems, no functions.
#![tactic(auto)]
