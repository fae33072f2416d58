//! What Only-to-Customer tells of a route.

/// What the attribute Only-to-Customer tells of a route (RFC 9234, section 5). The AS is the one that the attribute names: from it on, the
/// route may only have gone to customers.
#[derive(Clone, Copy, Debug, PartialEq, Eq)]
pub enum Leak {
    /// There is no attribute, or it is well formed and the neighbour may send a route with it.
    Clean,
    /// A leak: the route has the attribute and comes from a customer.
    Customer(u32),
    /// A leak: the route has the attribute and comes from a client of the route server that we are.
    RsClient(u32),
    /// A leak: the route comes from a peer, and the AS isn't the peer's.
    Peer(u32),
    /// The attribute is malformed.
    Malformed,
}
