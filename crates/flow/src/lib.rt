// Separate routes to one receiver, as a flow: what a flow is, the search for one route more, and the
// routes of a flow. The crate has the two records that the code hands about, and no function.
#![tactic(auto)]

// A flow, one unit to a route. A set of servers is one byte.
#[derive(Clone, Copy, Drop)]
pub struct Flow {
    // The servers that some route passes.
    pub used: u8,
    // Those at which a route starts.
    pub start: u8,
    // Those from which a route goes to the receiver.
    pub ends: u8,
    // Row x has the servers that a route goes to from x.
    pub out: [u8; 8],
}

// What a search ends with: the flow, and the servers whose entry side and whose leaving side were seen.
// A search answers `Ok` with one route more in the flow, or `Err` with the flow as it was.
#[derive(Clone, Copy, Drop)]
pub struct Searched {
    pub flow: Flow,
    pub entered: u8,
    pub left: u8,
}
