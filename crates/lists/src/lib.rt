// Laws on lists, in specs/. There is no code here.

#![tactic(auto)]
