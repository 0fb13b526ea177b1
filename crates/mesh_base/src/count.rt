ghost use Rattle.std.specs.Prelude.{◌≡◌, ◌+◌, ℕ};

use std::marker::Model;
use std::mem;
use std::snapshot::Snapshot;

#[derive(Drop)]
enum Chain {
    Start,
    After(Snapshot<Chain>),
}

/// A count that contracts see and that has no bytes at run time.
///
/// It starts at 0, and `raise` is the only call that changes it.
#[derive(Drop)]
pub struct Count {
    last: Snapshot<Chain>,
}

impl Model for Count {
    ghost use Rattle.std.specs.Prelude.{ℕ};
    ghost use Rattle.mesh_base.specs.Chains.{height};

    ghost Value = { ℕ };

    ghost view = { λ c. height c.last.value };
}

impl Count {
    pub fn new() -> Count
        ensures { result ≡ 0 }
    {
        Count {
            last: Snapshot::of(&Chain::Start),
        }
    }

    /// Raises the count by one.
    pub fn raise(&mut self)
        ensures { self.new ≡ self.old + 1 }
    {
        let last = mem::replace(&mut self.last, Snapshot::of(&Chain::Start));
        let next = Chain::After(last);
        self.last = Snapshot::of(&next);
    }
}

const _: () = prove!(mem::size_of::<Count>() == 0);
