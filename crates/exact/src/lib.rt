// Where each refusal stands, exactly, and what more room changes: specs/, shown in proofs/. There is no code.
#![tactic(auto)]
