// Laws of the lists, choices and tests that `meaning` is made of, for every crate above: they are in proofs/, and this crate has no code.
#![tactic(auto)]
