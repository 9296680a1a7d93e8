// What teaching and withdrawing answer and do to a book, as definitions and laws; no code. Assumes nothing.
#![tactic(auto)]
