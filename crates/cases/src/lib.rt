#![tactic(auto)]

// The cases of document 01 have no code: specs/ has their table, proofs/ the theorem that every row of it holds.
