// Sign-on's judgement: whether a data base is sound.
#![tactic(auto)]
