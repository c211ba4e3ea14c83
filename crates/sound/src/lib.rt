// What an accepted class file's tables say of the file: specs/Sound.antt, shown in proofs/Accepted.antt. There is no code.
#![tactic(auto)]
