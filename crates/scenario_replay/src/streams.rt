// Reading an input to its end, and writing all of a text.
ghost use Rattle.std.specs.Prelude.{◌≡◌, ◌≤◌, ◌<◌, ◌++◌, ◌^◌, ◌-◌, List, ℕ, [], length, drop, OnOk, OnErr, IfOk, IfSome, Some, None};
ghost use Rattle.store_api.specs.Streams.{HoldsMore, HoldsFront, HasFailed};
ghost use Rattle.scenario_replay.specs.Program.{TookEnough};

use std::alloc::Global;
use store_api::{Failed, Memory, Sink, Source};

/// The most bytes of an input.
pub const MOST_BYTES: usize = 16777216;

/// Why an input is not read whole.
#[derive(Clone, Copy, Debug, PartialEq, Eq)]
pub enum ReadStop {
    Failed,
    TooLong,
    Memory,
}

/// Reads to the end, and at most one byte more than an input may have.
pub fn read_all<R: Source>(alloc: Global, source: &mut R) -> Result<Vec<u8>, ReadStop>
    ensures whole { IfOk result (λ v. IfSome (R.left source.old) (λ all. v.items ≡ all)) }
    ensures short { IfOk result (λ v. length v.items ≤ MOST_BYTES) }
    ensures ended { OnOk result (IfSome (R.left source.new) (λ rest. rest ≡ [])) }
    ensures too_long { result ≡ Err ReadStop.TooLong → IfSome (R.left source.old) (λ all. MOST_BYTES < length all) }
    ensures enough { OnOk result (TookEnough (R.left source.old) (R.left source.new)) }
    ensures one_too_many { result ≡ Err ReadStop.TooLong → TookEnough (R.left source.old) (R.left source.new) }
    ensures failed { result ≡ Err ReadStop.Failed → HasFailed (R.faults source.old) (R.faults source.new) }
    ensures calm { OnOk result (R.faults source.new ≡ R.faults source.old) }
    ensures calm_too_long { result ≡ Err ReadStop.TooLong → R.faults source.new ≡ R.faults source.old }
    ensures count { R.faults source.old ≤ R.faults source.new }
{
    let mut all = Vec::new(alloc);
    let mut buffer = [0u8; 4096];
    while all.len() <= MOST_BYTES {
        let want = buffer.len().min(MOST_BYTES + 1 - all.len());
        let piece = &mut buffer[..want];
        let taken = match source.read(piece) {
            Ok(n) => n,
            Err(_) => return Err(ReadStop::Failed),
        };
        if taken == 0 {
            return Ok(all);
        }
        if all.extend_from_slice(&buffer[..taken]).is_err() {
            return Err(ReadStop::Memory);
        }
    }
    Err(ReadStop::TooLong)
}

/// Writes all of the bytes; after a failure a front of them is written.
pub fn write_all<W: Sink>(sink: &mut W, bytes: &[u8]) -> Result<(), Failed>
    ensures ok { OnOk result (HoldsMore (W.holds sink.old) (W.holds sink.new) bytes.now) }
    ensures err { OnErr result (HoldsFront (W.holds sink.old) (W.holds sink.new) bytes.now) }
    ensures failed { OnErr result (HasFailed (W.faults sink.old) (W.faults sink.new)) }
    ensures count { W.faults sink.old ≤ W.faults sink.new }
{
    let mut done = 0;
    while done < bytes.len() {
        let taken = sink.write(&bytes[done..])?;
        done += taken;
    }
    Ok(())
}
