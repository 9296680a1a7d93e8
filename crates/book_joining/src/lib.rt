// What joining two books answers and does, as definitions and laws; no code. Assumes nothing.
#![tactic(auto)]
