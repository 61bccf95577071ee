// Laws that name none of this library's notions: tests, searches, tables, rows, stores. The crate has no
// function; the proofs of the other crates cite its files.
#![tactic(auto)]
