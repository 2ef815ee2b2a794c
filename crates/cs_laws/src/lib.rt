//! The laws of the rules, proved over the definitions of `cs_types`. It has no code: its lemmas are for proofs.
#![tactic(auto)]
