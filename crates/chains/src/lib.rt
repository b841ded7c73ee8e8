// Two-way chains: the theory that ROOT chains and the chains of a path share. It knows neither records nor bytes. The files of specs/ in the
// order of reading: lists without repetitions (Members), chains of pointers and what changes them (Segments).
#![tactic(auto)]
