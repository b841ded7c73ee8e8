// The sixteen calls.
#![tactic(auto)]
