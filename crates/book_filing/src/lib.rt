// The stored book as definitions and laws: a file's bytes, and what writing and reading them answers; no code. Assumes nothing.
#![tactic(auto)]
