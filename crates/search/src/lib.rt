// The definitions and laws of searches and counts; they stand in specs/. What a search answers is an `Option`.
#![tactic(auto)]
