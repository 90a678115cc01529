// The chain over whole histories. There is no code here: specs/ has the definitions and the theorems.

#![tactic(auto)]
