// Cases a to j of document 01, "Small store, worked", as one table over the definitions.
#![tactic(auto)]
