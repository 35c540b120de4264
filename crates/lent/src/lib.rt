// The layout of a state's lent bytes, which lent_receiver and lent_sender share. It has no code of its own.
#![tactic(auto)]
