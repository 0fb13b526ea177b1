ghost use Rattle.std.specs.Prelude.{◌≡◌, ◌≤◌, ◌<◌, ◌-◌, ℕ, List, [], Some, Contains, take, drop, length, min, IfOk, OnOk, OnErr, is_some, IfSome};
ghost use Rattle.store_api.specs.Streams.{FailsToRead, FailsToWrite, HasFailed, HoldsMore, Took, failed_read, failed_write, taken_from, written_to};

use crate::streams::{Failed, Sink, Source};
use mesh_base::Memory;
use std::alloc::Global;
use std::marker::Model;

/// A source over a byte list, of which some calls fail.
#[derive(Debug, Drop)]
pub struct BytesSource {
    bytes: Vec<u8>,
    at: usize,
    fails: Vec<u64>,
    calls: u64,
    failed: u64,
}

impl Model for BytesSource {
    ghost use Rattle.std.specs.Prelude.{◌≤◌, drop, length};
    ghost use Rattle.store_api.specs.Streams.{Input};

    ghost Value = { Input };

    ghost view = { λ s. record { left = drop s.at s.bytes.items; fails = s.fails.items; calls = s.calls; faults = s.failed } };

    ghost invariant = { λ s. s.at ≤ length s.bytes.items };
}

impl BytesSource {
    /// Its `read` fails exactly at the calls whose numbers, counted from 0, are in `fails`.
    pub fn new(bytes: Vec<u8>, fails: Vec<u64>) -> BytesSource
        ensures { result ≡ record { left = bytes.items; fails = fails.items; calls = 0; faults = 0 } }
    {
        BytesSource {
            bytes,
            at: 0,
            fails,
            calls: 0,
            failed: 0,
        }
    }
}

impl Source for BytesSource {
    ghost left = { λ s. Some s.left };

    ghost faults = { λ s. s.faults };

    fn read(&mut self, into: &mut [u8]) -> Result<usize, Failed>
        ensures exact { IfOk result (λ n. n ≡ min (length into.old) (length self.old.left)) }
        ensures bytes { IfOk result (λ n. take n into.new ≡ take n self.old.left) }
        ensures taken { IfOk result (λ n. self.new ≡ taken_from n self.old) }
        ensures took { IfOk result (λ n. Took (Some self.old.left) (Some self.new.left) (take n into.new)) }
        ensures ends { IfOk result (λ n. n ≡ 0 → 0 < length into.old → self.new.left ≡ []) }
        ensures passes { OnOk result (¬ (FailsToRead self.old)) }

        ensures fails { OnErr result (FailsToRead self.old) }
        ensures failed { OnErr result (self.new ≡ failed_read self.old) }
        ensures cause { OnErr result (HasFailed self.old.faults self.new.faults) }

        ensures calm { OnOk result (self.new.faults ≡ self.old.faults) }

        ensures count { self.old.faults ≤ self.new.faults }
    {
        let call = self.calls;
        self.calls = self.calls.saturating_add(1);
        if self.fails.contains(&call) {
            self.failed = self.failed.saturating_add(1);
            return Err(Failed);
        }
        let most = into.len().min(self.bytes.len() - self.at);
        let end = self.at + most;
        into[..most].copy_from_slice(&self.bytes[self.at..end]);
        self.at = end;
        Ok(most)
    }
}

/// A sink over a byte list with a fixed room, of which some calls fail.
#[derive(Debug, Drop)]
pub struct BytesSink {
    bytes: Vec<u8>,
    room: usize,
    fails: Vec<u64>,
    calls: u64,
    failed: u64,
}

impl Model for BytesSink {
    ghost use Rattle.std.specs.Prelude.{◌≤◌, length, vec_capacity};
    ghost use Rattle.store_api.specs.Streams.{Output};

    ghost Value = { Output };

    ghost view = { λ s. record { held = s.bytes.items; room = s.room; fails = s.fails.items; calls = s.calls; faults = s.failed } };

    ghost invariant = { λ s. (length s.bytes.items ≤ s.room) × (s.room ≤ vec_capacity s.bytes) };
}

impl BytesSink {
    /// Takes memory for `room` bytes at once.
    ///
    /// Its `write` fails exactly at the calls whose numbers, counted from 0, are in `fails`, and
    /// where the piece is not empty and the room is used up. Otherwise it takes as much of the
    /// piece as there is room for.
    pub fn new(alloc: Global, room: usize, fails: Vec<u64>) -> Result<BytesSink, Memory>
        ensures { IfOk result (λ sink. sink ≡ record { held = []; room = room; fails = fails.items; calls = 0; faults = 0 }) }
    {
        let bytes = Vec::with_capacity(alloc, room)?;
        Ok(BytesSink {
            bytes,
            room,
            fails,
            calls: 0,
            failed: 0,
        })
    }

    /// What it holds.
    pub fn bytes(&self) -> &[u8]
        ensures { result.now ≡ self.now.held }
    {
        self.bytes.as_slice()
    }
}

impl Sink for BytesSink {
    ghost holds = { λ s. Some s.held };

    ghost faults = { λ s. s.faults };

    fn write(&mut self, bytes: &[u8]) -> Result<usize, Failed>
        ensures exact { IfOk result (λ n. n ≡ min (length bytes.now) (self.old.room - length self.old.held)) }
        ensures some { IfOk result (λ n. 0 < length bytes.now → 0 < n) }
        ensures written { IfOk result (λ n. self.new ≡ written_to (take n bytes.now) self.old) }
        ensures passes { OnOk result (¬ (FailsToWrite self.old bytes.now)) }

        ensures fails { OnErr result (FailsToWrite self.old bytes.now) }
        ensures failed { OnErr result (self.new ≡ failed_write self.old) }
        ensures cause { OnErr result (HasFailed self.old.faults self.new.faults) }

        ensures calm { OnOk result (self.new.faults ≡ self.old.faults) }

        ensures count { self.old.faults ≤ self.new.faults }
    {
        let call = self.calls;
        self.calls = self.calls.saturating_add(1);
        let room = self.room - self.bytes.len();
        if self.fails.contains(&call) || (room == 0 && !bytes.is_empty()) {
            self.failed = self.failed.saturating_add(1);
            return Err(Failed);
        }
        let most = bytes.len().min(room);
        let (taken, _) = bytes.split_at(most);
        self.bytes.extend_from_slice(taken).unwrap();
        Ok(most)
    }
}
