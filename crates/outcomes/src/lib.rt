// The cases that document 01 works by hand, as one list of inputs with their outcomes: definitions and a theorem, no code.
#![tactic(auto)]
