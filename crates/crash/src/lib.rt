// The crash invariant: what holds of a store between any two single stores into the persistent image.
// Definitions and proofs only; they stand in specs/, and speak of a table of slots, not of words.
#![tactic(auto)]
