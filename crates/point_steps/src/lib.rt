// Points stay on their chains: the adds, DELVD and WRITV keep the state of condition 3. The files of specs/ in the order of reading: one row
// (RowFacts); a sound data base stands for rows and the other way round (Standing); paths follow their masters (FollowLaws); pointers of chains as
// addresses (Nodes), what a call on one record leaves of everything else (PointSteps), WRITV (WriteSteps); the change of one
// chain (RowChange), a record's place in it, and no damage met (Neighbours); a record linked or unlinked on all paths by deeds (Sides), the adds
// (AddSteps) and DELVD (DelSteps).
#![tactic(auto)]
