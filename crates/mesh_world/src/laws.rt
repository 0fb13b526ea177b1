// What holds of every turn.
ghost use Rattle.mesh_world.specs.Runs.{TurnsEndWhole};

/// A turn without a limit that is not refused ends at its store's revision, and is caught up there where
/// the store is synced.
pub fn turns_end_whole()
    ensures { TurnsEndWhole }
{}
