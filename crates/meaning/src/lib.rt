// What the yard must believe, and nothing else: the definitions are in specs/, and this crate has no code.
#![tactic(auto)]
