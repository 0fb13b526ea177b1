ghost use Rattle.record_check.specs.Laws.{ChecksByJudging, ChecksConfigsFirstFault, ChecksFirstFault, ReadsFirstFault, ReadsKeysInRanges, ReservedFitEveryCluster};

/// Checking a pair is reading it and then judging what was read.
pub fn checks_by_judging()
    ensures { ChecksByJudging }
{}

/// Whether an address with a reserved identity has a fault does not depend on the cluster that it
/// came from.
pub fn reserved_fit_every_cluster()
    ensures { ReservedFitEveryCluster }
{}

/// In the ranges of a cluster's records the reading of a pair has the key and the key's faults as
/// `read_key` has them.
pub fn reads_keys_in_ranges()
    ensures { ReadsKeysInRanges }
{}

/// The fault of a reading is the first of its rows, and it has none exactly where no row holds.
pub fn reads_first_fault()
    ensures { ReadsFirstFault }
{}

/// The fault of a checked pair is the first of its table, and it has none exactly where no row
/// holds.
pub fn checks_first_fault()
    ensures { ChecksFirstFault }
{}

/// The fault of a checked config is the first of its table, and it has none exactly where no row
/// holds.
pub fn checks_configs_first_fault()
    ensures { ChecksConfigsFirstFault }
{}
