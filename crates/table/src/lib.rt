// The small cases of docs/FORMATS.md, and others that follow from its rules, as one table with one
// proof. The crate has no function: specs/ has the rows, proofs/ the theorem that all of them hold.
#![tactic(auto)]
