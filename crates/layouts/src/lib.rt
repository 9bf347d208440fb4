#![tactic(auto)]

// What is said of a kernel of any sizes, in specs/ and proofs/; it has no code.
