// Wrong stores: each breaks condition 2, and a run of calls shows that it breaks condition 3. The files of specs/ and proofs/ in the order of reading:
// the stores (Wrong); a small data base with two paths, and calls on it (Twin);
// trials of the stores on it (Trials), computed (TrialLaws); the refutations (WrongLaws).
#![tactic(auto)]
