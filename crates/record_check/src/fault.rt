use key_paths::KeyFault;
use record_values::ReadFault;

/// What is wrong with a pair, in the order in which the faults are looked for.
///
/// `Key` and `Read` hold the named faults of the two readers and never want of memory.
#[derive(Clone, Debug, Drop)]
pub enum Fault {
    /// The key is none of a record.
    Key(KeyFault),
    /// The value has more bytes than a value may have. `len` is the number of its bytes.
    TooLarge { len: u64 },
    /// The value is no record of the key's kind.
    Read(ReadFault),
    /// A node or a service names another cluster than the one that it came from.
    Cluster,
    /// The cluster's number in a node, a service or an identity is not that of the cluster. In a
    /// config the number is none that a cluster may have.
    ClusterId,
    /// A service names another namespace than its key.
    Namespace,
    /// A node or a service has another name than its key.
    Name,
    /// An address is not that of its key.
    AddressKey,
    /// A config is for a mesh of another limit. `have` is the config's limit.
    Limit { have: u64 },
}
