// What is learnt from a set of orders, as definitions and laws on document 000's parts; no code. Assumes nothing.
#![tactic(auto)]
