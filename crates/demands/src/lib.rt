// The three demands, over all public calls: proofs/Demand1.antt, Demand2.antt and Demand3.antt. There is no code here.
#![tactic(auto)]
