ghost use Rattle.std.specs.Prelude.{◌≡◌, ℕ, List, map, Option};
ghost use Rattle.std.specs.List.{list_all};
ghost use Rattle.std.specs.Option.{option_copied};
ghost use Rattle.store_api.specs.History.{Pairs};
ghost use Rattle.key_paths.specs.declared.hop.Hop.{Hop};
ghost use Rattle.key_paths.specs.Paths.{kinds};
ghost use Rattle.record_check.specs.declared.limit.Limit.{Limit};
ghost use Rattle.synced_marks.specs.Synced.{config_in, has_mark, is_synced, is_synced_by};

use record_values::ClusterConfig;

/// Whether a source is synced: it has a valid config, and this says no canaries or the marks of all
/// four kinds are there (Cilium: a remote cluster counts as synced by its canaries).
///
/// `config` is the source's config where it is valid, and `None` otherwise; validity isn't tested
/// here. `marks` says in the order of `Kind` which marks are there. It takes no memory.
pub fn is_synced(config: Option<&ClusterConfig>, marks: [bool; 4]) -> bool
    ensures by { result ≡ is_synced_by (option_copied config.entry) (list_all (λ mark. mark) marks) }

    // For the pairs of any source with that config and those marks.
    ensures synced { (cluster : List ℕ) (hop : Hop) (limit : Limit) (pairs : Pairs) → option_copied config.entry ≡ config_in cluster limit pairs → marks ≡ map (has_mark cluster hop pairs) kinds → result ≡ is_synced cluster hop limit pairs }
{
    match config {
        Some(config) => !config.synced_canaries || marks.iter().all(|mark| *mark),
        None => false,
    }
}
