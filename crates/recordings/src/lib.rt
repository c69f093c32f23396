// Demand 3 over any frame rules and any key: laws only.

#![tactic(auto)]
