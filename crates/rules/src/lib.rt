// The rules of a route plan as docs/FORMATS.md states them, the decoded plan, and the theorems that
// the plan check accepts exactly the plans that meet the rules and that an accepted plan shows a
// good network. The crate has no function.
#![tactic(auto)]
