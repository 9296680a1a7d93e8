// An order's own book, the book of some teachings of it, and how it is listed, as definitions and laws; no code. Assumes nothing.
#![tactic(auto)]
