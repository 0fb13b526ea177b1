use crate::source::Source;
use mesh_text::ClusterName;
use record_check::Limit;

/// What the tables were told of all sources, from which a report makes its rows.
#[derive(Drop)]
pub struct Tables {
    pub(crate) local: ClusterName,
    pub(crate) number: u32,
    pub(crate) limit: Limit,
    pub(crate) sources: Vec<Source>,
}
