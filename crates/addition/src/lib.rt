// The addition of unwind routes, as a definition (specs), and why its hops spell the listed paths (proofs). No code.
#![tactic(auto)]
