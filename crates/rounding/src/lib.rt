// f32 as whole units of 2^-149: definitions and laws, in specs/. There is no code here.

#![tactic(auto)]
