ghost use Rattle.std.specs.Prelude.{◌≡◌, ◌≤◌, ◌<◌, ℕ, List, [], Option, take, length, IfOk, OnOk, OnErr, is_some, IfSome};
ghost use Rattle.store_api.specs.Streams.{HasFailed, HoldsMore, Took};

/// The outside failed.
#[derive(Clone, Copy, Debug, PartialEq, Eq)]
pub struct Failed;

/// Bytes to read.
pub trait Source {
    /// What is left, where the source tells it.
    ghost left: { Self → Option (List ℕ) };

    /// How often it failed, or 2 ^ 64 - 1 where it was more often.
    ghost faults: { Self → ℕ };

    /// Takes some of the bytes that are left, and puts them at the buffer's beginning.
    ///
    /// The answer says how many; 0 for a buffer that is not empty is the end.
    fn read(&mut self, into: &mut [u8]) -> Result<usize, Failed>
        ensures within { IfOk result (λ n. n ≤ length into.old) }
        ensures took { IfOk result (λ n. Took (left self.old) (left self.new) (take n into.new)) }
        ensures ends { IfOk result (λ n. n ≡ 0 → 0 < length into.old → IfSome (left self.new) (λ rest. rest ≡ [])) }

        ensures told { OnErr result (is_some (left self.new) ≡ is_some (left self.old)) }
        ensures cause { OnErr result (HasFailed (faults self.old) (faults self.new)) }

        // A success is no failure.
        ensures calm { OnOk result (faults self.new ≡ faults self.old) }

        ensures count { faults self.old ≤ faults self.new };
}

/// Where bytes are written.
pub trait Sink {
    /// What it holds, where the sink tells it.
    ghost holds: { Self → Option (List ℕ) };

    /// How often it failed, or 2 ^ 64 - 1 where it was more often.
    ghost faults: { Self → ℕ };

    /// Appends some of the bytes, at least one where there are any.
    ///
    /// The answer says how many. A sink that can take nothing answers `Failed`.
    fn write(&mut self, bytes: &[u8]) -> Result<usize, Failed>
        ensures within { IfOk result (λ n. n ≤ length bytes.now) }
        ensures some { IfOk result (λ n. 0 < length bytes.now → 0 < n) }
        ensures appended { IfOk result (λ n. HoldsMore (holds self.old) (holds self.new) (take n bytes.now)) }

        ensures kept { OnErr result (holds self.new ≡ holds self.old) }
        ensures cause { OnErr result (HasFailed (faults self.old) (faults self.new)) }

        // A success is no failure.
        ensures calm { OnOk result (faults self.new ≡ faults self.old) }

        ensures count { faults self.old ≤ faults self.new };
}
