// The ground of condition 3. The files of specs/ in the order of reading: what a storing call does, by address (Deeds), what it leaves there
// (Holds, DeedLaws), in a record by its bytes (HeldLaws), of checks and free room (SettleLaws), and in areas (AreaMade); what two data bases have in
// common (Frames); the state that every call keeps (Rows), and that FORMT leaves it (FreshLaws); what a call has passed before it stores (Tests).
#![tactic(auto)]
