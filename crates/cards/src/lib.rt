// Laws of cards: which cards give the same network, what a card says, and what is printed of it.
// The crate has no function.
#![tactic(auto)]
