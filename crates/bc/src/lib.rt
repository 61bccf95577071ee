// Algorithm BC of Tseng and Vaidya, what it asks of its choices, and its validity and agreement. No
// bytes and no plan: a reader of the paper starts here. The crate has no function.
#![tactic(auto)]
