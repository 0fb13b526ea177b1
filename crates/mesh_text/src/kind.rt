/// A kind of record that a cluster exports.
#[derive(Clone, Copy, Debug, PartialEq, Eq, PartialOrd, Ord, Hash)]
pub enum Kind {
    Nodes,
    Services,
    Identities,
    Addresses,
}
