// The rules have no code of their own: they are the definitions of specs/, and what is proved of them in proofs/.
#![tactic(auto)]
