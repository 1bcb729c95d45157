// The kana names of files: each in one script, and what every call says of a file with another. Document 02 (viii) as theorems over what the calls
// reply and leave in their outputs. Claims (specs/) and their proofs, no code.
#![tactic(auto)]
