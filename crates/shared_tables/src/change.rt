use key_paths::Key;
use mesh_base::Bytes;
use record_check::Fault;
use record_values::Record;

/// What a pair of a key and a value says: a record under its key, or the first fault of its bytes.
pub type Reading = Result<(Key, Record), Fault>;

/// A pair of a source as it was read.
#[derive(Debug, Drop)]
pub struct Row {
    /// The bytes of the key, as the key stands in the exporter's store.
    pub key: Bytes,
    pub reading: Reading,
}

/// One key's row before and after.
#[derive(Debug, Drop)]
pub struct RecordChange {
    /// The place of the source among the sources of the tables.
    pub source: u32,
    pub old: Option<Row>,
    pub new: Option<Row>,
}
