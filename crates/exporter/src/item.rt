use mesh_base::Bytes;
use mesh_text::Kind;

/// What waits to be written.
#[derive(Debug, Drop)]
pub(crate) enum Item {
    /// The cluster's config.
    Config,
    /// The record of this key, or its deletion where none is declared.
    Record { key: Bytes },
    /// The mark of a kind.
    Mark(Kind),
}
