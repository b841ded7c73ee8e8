// Condition 3: every chain is the list it should be, after every sequence of calls. The files of specs/ and proofs/ in the order of reading:
// the statement: Plain, Readings, Condition; beside it, a reading is one (ReadingLaws) and every path of a schema is a place (PlaceLaws);
// lists show rows: Shown, ShownLaws;
// the ladder: when it does not say DAMG (Calm), groups of operations (Operations), a ladder that is passed (Outcomes);
// what a call that comes to its last tests knows: Passed, CallTests; so no call says DAMG: QuietReads, Quiet;
// what a call does to the lists: Turns, Steps;
// what the calls read: ReadTests (READM, READV, READR), ExistsLaws (READM), ReadLaws (READV, READR); AreaKeys, PointLaws, SweepCall, SweepLaws (RDNXT);
// and the theorem: Theorem.
#![tactic(auto)]
