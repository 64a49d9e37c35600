// Definitions and laws on lists, numbers and tests, in specs/ and proofs/. No code.
#![tactic(auto)]
