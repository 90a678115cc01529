// In which box the result of f32 operations lies: definitions and laws, in specs/. There is no code here.

#![tactic(auto)]
