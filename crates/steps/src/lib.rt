// The six steps of a block and the run on bytes, as definitions; the choices that a plan makes for
// Algorithm BC; and the theorems that a run decides as the algorithm does, and demand 3. The crate
// has no function: the code is in `run`.
#![tactic(auto)]
