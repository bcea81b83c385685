// What the yard may rely on, as theorems about `meaning`: proofs/Promises.antt restates them all, and this crate has no code.
#![tactic(auto)]
