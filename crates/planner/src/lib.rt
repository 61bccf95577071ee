// The plan that is written for a network, and what is proved of it: the plan check accepts it wherever no
// split is bad, and no accepted plan is shorter. The crate has no function.
#![tactic(auto)]
