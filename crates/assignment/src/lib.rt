#![tactic(auto)]

// The mathematics of cheapest plans has no code: specs/ has its definitions, proofs/ its theorems.
