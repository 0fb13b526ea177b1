use key_paths::Hop;
use mesh_base::{Bytes, Items};
use mesh_text::{ClusterName, Ip, PartName};
use record_values::IdentityRecord;

/// A cluster with its number, from 1 to 255.
#[derive(Debug, Drop)]
pub struct Cluster {
    pub name: ClusterName,
    pub number: u32,
}

/// A cluster that is watched.
#[derive(Debug, Drop)]
pub struct Remote {
    pub name: ClusterName,
    /// From 1 to 255.
    pub number: u32,
    /// Which store its agent reads.
    pub hop: Hop,
}

/// How many items or revisions at most.
#[derive(Clone, Copy, Debug, PartialEq, Eq)]
pub enum Count {
    /// From 1 to 1,000,000,000.
    Of(u64),
    All,
}

/// The pod that an address is of.
#[derive(Debug, Drop)]
pub struct Pod {
    pub namespace: PartName,
    pub name: PartName,
}

/// Which record is withdrawn.
#[derive(Debug, Drop)]
pub enum Withdrawn {
    Node(PartName),
    Identity(u32),
    Address(Ip),
}

/// What is written straight into a remote's store.
#[derive(Debug, Drop)]
pub enum RawWrite {
    /// A pair: 1 to 1,024 bytes of key and up to 32,768 of value.
    Put { key: Bytes, value: Bytes },
    /// A key of 1 to 1,024 bytes is deleted.
    Delete { key: Bytes },
}

/// A connection of a remote over which calls of a store go, and may fail.
#[derive(Clone, Copy, Debug, PartialEq, Eq)]
pub enum LinkName {
    /// From the remote's exporter to the remote's store.
    Exporter,
    /// From KVStoreMesh's worker for the remote to the remote's store.
    Remote,
    /// From KVStoreMesh's worker for the remote to the local store.
    Local,
    /// From the agent's reader of the remote to the store that it reads.
    Agent,
}

/// When a call fails.
#[derive(Clone, Copy, Debug, PartialEq, Eq)]
pub enum Moment {
    /// Before it is made, so it has no effect.
    Before,
    /// After it is made, so it has its whole effect, and its answer is lost.
    After,
}

/// Whose store it is.
#[derive(Clone, Copy, Debug, PartialEq, Eq)]
pub enum StoreOf {
    /// The local cluster's.
    Local,
    /// That of the remote at this place in the scenario's list.
    Remote(usize),
}

/// What one line of a scenario does. `remote` is a remote's place in the scenario's list.
#[derive(Debug, Drop)]
pub enum Action {
    /// The remote declares a node with these internal addresses.
    Node {
        remote: usize,
        name: PartName,
        addresses: Items<Ip>,
    },
    /// The remote declares an identity with its labels.
    Identity {
        remote: usize,
        identity: u32,
        labels: IdentityRecord,
    },
    /// The remote declares an address with its identity, its host and its pod.
    Address {
        remote: usize,
        ip: Ip,
        identity: u32,
        host: Option<Ip>,
        pod: Option<Pod>,
    },
    /// The remote withdraws a record.
    Withdraw {
        remote: usize,
        record: Withdrawn,
    },
    /// The remote's exporter starts.
    Start {
        remote: usize,
    },
    /// The remote's exporter stops.
    Stop {
        remote: usize,
    },
    /// The remote's exporter renews its lease.
    Keep {
        remote: usize,
    },
    /// The remote's exporter writes some of its queue.
    Export {
        remote: usize,
        count: Count,
    },
    /// A write without lease straight into the remote's store.
    Raw {
        remote: usize,
        write: RawWrite,
    },
    /// The clock of every store moves, by 1 to 1,000,000,000 seconds.
    Tick {
        seconds: u64,
    },
    /// A store forgets its changes up to a revision, from 1 to 1,000,000,000.
    Compact {
        store: StoreOf,
        revision: u64,
    },
    /// A link of the remote goes up, or down, where every call of it fails.
    Link {
        remote: usize,
        link: LinkName,
        up: bool,
    },
    /// A call of a link of the remote is planned to fail, behind those planned before: the one
    /// that comes after this many further calls, from 0 to 1,000,000.
    Fail {
        remote: usize,
        link: LinkName,
        skip: u32,
        moment: Moment,
    },
    /// The agent reads the remote's store once, and no more revisions than these.
    Turn {
        remote: usize,
        count: Count,
    },
    /// The agent begins anew, and knows nothing of what it read.
    RestartAgent,
    /// A report is written.
    Report,
}

/// What a text says.
#[derive(Debug, Drop)]
pub struct Scenario {
    /// The cluster from which the mesh is seen.
    pub local: Cluster,
    /// The seconds of a lease, from 1 to 1,000,000,000, where the text had them.
    pub lease: Option<u64>,
    /// In the order of their lines, with names that differ from each other and from the local one.
    pub remotes: Items<Remote>,
    /// In the order of their lines.
    pub actions: Items<Action>,
}
