use crate::rows::Why;

/// How a source stands among all.
#[derive(Debug, Drop)]
pub(crate) enum Standing {
    /// It has no config.
    NoConfig,
    /// It is not admitted, for this reason.
    Refused(Why),
    /// It is admitted with this number.
    Admitted(u32),
}
