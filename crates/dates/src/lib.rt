// The dates of canonical files: each day has one spelling there, under the newest era that has begun. Document 02 (i) as theorems over what the call
// canonical writes. Claims (specs/) and their proofs, no code.
#![tactic(auto)]
