// Masters stay where their keys are looked for: ADD-M, DEL-M and WRITM keep the state of condition 3. The files of specs/ in the order of reading:
// linked lists and the change of one (LinkedLists); the lists of a set of masters, one for each home (RowLaws), a key found or missed (FindLaws),
// neighbours (Neighbours), no damage met (QuietLaws); a change of the middle of one list keeps the set sound (TouchLaws), case by case (ChangeLaws);
// from the stores: deeds on masters (CallDeeds), what ADD-M and DEL-M store (Relinks), a master's bytes (Images), the cases (AddStores, DelStores);
// and the steps (MasterStep, MasterSteps).
#![tactic(auto)]
