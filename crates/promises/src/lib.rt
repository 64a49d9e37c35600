// What the four calls answer and leave, and the customer's demands proved over it, in specs/ and proofs/. No code.
#![tactic(auto)]
