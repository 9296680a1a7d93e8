// The three demands and the numbered cases, as theorems: no code.
#![tactic(auto)]
