#![tactic(auto)]

// The definitions of document 01 and their mathematics: see specs/ and proofs/. No code is needed here.
