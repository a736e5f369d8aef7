// No code: how a loop over lent records gathers, which the crates with such loops cite, and walks of functions over references to records, for any
// structs of plain data.
#![tactic(auto)]
