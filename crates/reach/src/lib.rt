// Which slots refer to which is defined in specs/Reach.antt, and what holds of it is proved in proofs/. There is no code here.
#![tactic(auto)]
