// The passes of an analysis and their laws: definitions in specs/, proofs in proofs/, and no code.
#![tactic(auto)]
