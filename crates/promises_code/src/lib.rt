// That the contracts of the code say what the theorems of `promises` speak of, for the functions below and for those of C: no code.
#![tactic(auto)]
