// Theorem 1 of the paper over arbitrary sets, the theorem that the split test decides it, and that
// it holds only where there are at least 3f+1 servers. The crate has no function.
#![tactic(auto)]
