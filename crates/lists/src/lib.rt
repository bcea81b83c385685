// Mathematics only: the start list and the step list of two sheets, as functions that have trees; definitions in specs/, laws in proofs/, and no code.
#![tactic(auto)]
