// Demand 3, a statement about the definitions that the contracts of receiver, sender and track cite. It has no code of its own.
#![tactic(auto)]
