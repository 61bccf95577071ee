// A server's own part in a run, as definitions: asking and committing, kind by kind; and the
// theorem that servers stepped side by side decide as the run does. The crate has no function: the
// code is in `server`.
#![tactic(auto)]
