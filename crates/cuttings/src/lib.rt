// IDs that have been used, as theorems over what the calls cut and join reply: when 24 is given, and that pieces of two cuttings are told apart where
// the second knew the first's ID. Document 02 (vii). Claims (specs/) and their proofs, no code.
#![tactic(auto)]
