//! How long actions take.

/// How long an action takes: `base + per * amount` instants.
///
/// The amount is what the machine uses of the resource at present or, for an action of a node, what the node's capacity of it says.
#[derive(Clone, Copy, Debug, PartialEq, Eq)]
pub struct Duration {
    /// Instants, 1 to `MAX_DURATION`.
    pub base: u32,
    /// Instants for each unit of the resource, 0 to `MAX_DURATION`.
    pub per: u32,
    /// A resource by its place in the cluster's list. It is there wherever `per` is above 0.
    pub resource: Option<u8>,
}
