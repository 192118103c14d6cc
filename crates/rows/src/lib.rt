// No code: what a lent slice holds after a write (specs/), and the laws of it that every writer cites (proofs/).
#![tactic(auto)]
