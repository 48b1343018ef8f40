// General laws, in specs/: signed numbers and lists. There is no code.
#![tactic(auto)]
