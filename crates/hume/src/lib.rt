// The machine of document 01, written down: specs/ has the definitions, proofs/ the sums that are computed with them.
#![tactic(auto)]
