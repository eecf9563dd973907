// Definitions and laws only: a machine of any kind, run under limits. See specs/ and proofs/.
#![tactic(auto)]
