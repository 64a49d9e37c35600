// Definitions and theorems over an abstract automaton, in specs/ and proofs/. No code.
#![tactic(auto)]
