// The calls of a store as lines of text, and their answers in words.
//
// An operation is a word: `KEY=VALUE` puts, `KEY=VALUE@LEASE` puts under a lease, and `-KEY` deletes.
ghost use Rattle.std.specs.Prelude.{◌≡◌, ◌≤◌, ℕ, List, false, IsTrue, IfOk, IfSome, map, length};
ghost use Rattle.std.specs.List.{IsDistinct, AllByRecursion};
ghost use Rattle.mesh_base.specs.Order.{same_bytes};
ghost use Rattle.store_api.specs.History.{key_of};

use mesh_base::{Bytes, Items, Memory};
use std::alloc::{AllocError, Global};
use std::cmp::Ordering;
use store_api::{
    Batch, Change, Listing, MAX_OPS, Op, Range, Ranges, Revision, Store, StoreAdmin, StoreFault,
};

/// The word, and what stands behind it.
pub fn cut(line: &str) -> (&str, &str) {
    line.split_once(" ").unwrap_or((line, ""))
}

/// The number that the word writes, and 0 for another word.
pub fn number(word: &str) -> u64 {
    word.parse().unwrap_or(0)
}

fn put(alloc: Global, key: &str, value: &str, lease: Option<u64>) -> Result<Op, AllocError> {
    Ok(Op::Put {
        key: Bytes::from_slice(alloc, key.as_bytes())?,
        value: Bytes::from_slice(alloc, value.as_bytes())?,
        lease,
    })
}

fn operation(alloc: Global, word: &str) -> Result<Op, AllocError> {
    if let Some(key) = word.strip_prefix("-") {
        let key = Bytes::from_slice(alloc, key.as_bytes())?;
        return Ok(Op::Delete { key });
    }
    let (key, value) = word.split_once("=").unwrap_or((word, ""));
    match value.split_once("@") {
        Some((value, lease)) => put(alloc, key, value, lease.parse().ok()),
        None => put(alloc, key, value, None),
    }
}

fn operations(alloc: Global, words: &str) -> Result<Vec<Op>, Memory> {
    let mut ops = Vec::new(alloc);
    for word in words.split(" ") {
        ops.push(operation(alloc, word)?)?;
    }
    Ok(ops)
}

fn key(op: &Op) -> &[u8]
    ensures { result.now ≡ key_of op.now }
{
    match op {
        Op::Put {
            key,
            value: _,
            lease: _,
        }
        | Op::Delete { key } => key.as_slice(),
    }
}

fn is_free(of: &[u8], ops: &[Op]) -> bool
    ensures { IsTrue result → AllByRecursion (λ k. same_bytes of.now k ≡ false) (map key_of ops.now) }
{
    match ops {
        [] => true,
        [first, rest @ ..] => of.cmp(key(first)) != Ordering::Equal && is_free(of, rest),
    }
}

fn are_distinct(ops: &[Op]) -> bool
    ensures { IsTrue result → IsDistinct same_bytes (map key_of ops.now) }
{
    match ops {
        [] => true,
        [first, rest @ ..] => is_free(key(first), rest) && are_distinct(rest),
    }
}

/// The operations, where they can be one transaction.
pub fn transaction(alloc: Global, words: &str) -> Result<Option<Vec<Op>>, Memory>
    ensures { IfOk result (λ found. IfSome found (λ ops. (length ops.items ≤ MAX_OPS) × IsDistinct same_bytes (map key_of ops.items))) }
{
    let ops = operations(alloc, words)?;
    if ops.len() > MAX_OPS || !are_distinct(ops.as_slice()) {
        return Ok(None);
    }
    Ok(Some(ops))
}

/// Each key that begins with one of the words, or each key where there is no word.
pub fn ranges(alloc: Global, words: &str) -> Result<Ranges, AllocError> {
    let mut items = Items::new(alloc);
    for front in words.split(" ") {
        items.push(Range::Prefix(Bytes::from_slice(alloc, front.as_bytes())?))?;
    }
    Ok(Ranges { items })
}

/// The answer where a line asks nothing that can be asked.
pub fn told_nothing(alloc: Global) -> Result<String, Memory> {
    Ok("no such call".to_string(alloc)?)
}

fn refused(alloc: Global, fault: StoreFault) -> Result<String, Memory> {
    Ok(format!(in alloc; "{fault:?}")?)
}

pub fn told(alloc: Global, answer: Result<u64, StoreFault>) -> Result<String, Memory> {
    match answer {
        Ok(number) => Ok(number.to_string(alloc)?),
        Err(fault) => refused(alloc, fault),
    }
}

/// The revision and the keys.
fn listed(alloc: Global, listing: &Listing) -> Result<String, Memory> {
    let mut told = format!(in alloc; "at {}", listing.at)?;
    for pair in listing.pairs.as_slice() {
        told.push_str(" ")?;
        told.push_str(String::from_utf8_lossy(alloc, pair.key.as_slice())?.as_str())?;
    }
    Ok(told)
}

fn push_change(alloc: Global, told: &mut String, change: &Change) -> Result<(), Memory> {
    let (sign, key) = match change {
        Change::Put { key, .. } => ("+", key),
        Change::Delete { key } => ("-", key),
    };
    told.push_str(sign)?;
    told.push_str(String::from_utf8_lossy(alloc, key.as_slice())?.as_str())?;
    Ok(())
}

// The revision's number, and behind it its writer where this is not 0.
fn push_number(alloc: Global, told: &mut String, revision: &Revision) -> Result<(), Memory> {
    told.push_str(revision.number.to_string(alloc)?.as_str())?;
    if revision.writer != 0 {
        told.push_str(":")?;
        told.push_str(revision.writer.to_string(alloc)?.as_str())?;
    }
    Ok(())
}

/// Each revision's number (`NUMBER:WRITER` where the writer is not 0) with the keys that it put and
/// deleted, and then how far the batch goes.
fn pulled(alloc: Global, batch: &Batch) -> Result<String, Memory> {
    let mut told = String::new(alloc);
    for revision in batch.revisions.as_slice() {
        push_number(alloc, &mut told, revision)?;
        for change in revision.changes.as_slice() {
            push_change(alloc, &mut told, change)?;
        }
        told.push_str(" ")?;
    }
    told.push_str(batch.upto.to_string(alloc)?.as_str())?;
    Ok(told)
}

fn commit<S: Store>(store: &mut S, alloc: Global, words: &str) -> Result<String, Memory>
    requires { (key : List ℕ) → IsTrue ((S.meaning store.old).writable key) }
{
    match transaction(alloc, words)? {
        Some(ops) => told(alloc, store.commit(alloc, ops.as_slice())),
        None => told_nothing(alloc),
    }
}

fn grant<S: Store>(store: &mut S, alloc: Global, seconds: u64) -> Result<String, Memory> {
    if seconds == 0 {
        return told_nothing(alloc);
    }
    told(alloc, store.grant(alloc, seconds))
}

fn keep<S: Store>(store: &mut S, alloc: Global, lease: u64) -> Result<String, Memory> {
    match store.keep_alive(lease) {
        Ok(()) => Ok("done".to_string(alloc)?),
        Err(fault) => refused(alloc, fault),
    }
}

fn list<S: Store>(store: &mut S, alloc: Global, prefixes: &str) -> Result<String, Memory> {
    match store.list(alloc, &ranges(alloc, prefixes)?) {
        Ok(listing) => listed(alloc, &listing),
        Err(fault) => refused(alloc, fault),
    }
}

fn pull<S: Store>(store: &mut S, alloc: Global, words: &str) -> Result<String, Memory> {
    let (from, rest) = cut(words);
    let (most, prefixes) = cut(rest);
    let from = number(from);
    if from == 0 {
        return told_nothing(alloc);
    }
    match store.pull(alloc, &ranges(alloc, prefixes)?, from, number(most)) {
        Ok(batch) => pulled(alloc, &batch),
        Err(fault) => refused(alloc, fault),
    }
}

/// Makes the call that is asked for: `commit OPERATION..`, `grant SECONDS`, `keep LEASE`,
/// `list PREFIX..` or `pull FROM MOST PREFIX..`, where no prefix is every key.
pub fn call<S: Store>(store: &mut S, alloc: Global, asked: &str) -> Result<String, Memory>
    requires { (key : List ℕ) → IsTrue ((S.meaning store.old).writable key) }
{
    let (verb, rest) = cut(asked);
    match verb {
        "commit" => commit(store, alloc, rest),
        "grant" => grant(store, alloc, number(rest)),
        "keep" => keep(store, alloc, number(rest)),
        "list" => list(store, alloc, rest),
        "pull" => pull(store, alloc, rest),
        _ => told_nothing(alloc),
    }
}

/// The same, and `tick SECONDS` and `compact UPTO`.
pub fn administer<S: StoreAdmin>(
    store: &mut S,
    alloc: Global,
    asked: &str,
) -> Result<String, Memory>
    requires { (key : List ℕ) → IsTrue ((S.meaning store.old).writable key) }
{
    let (verb, rest) = cut(asked);
    match verb {
        "tick" => told(alloc, store.tick(alloc, number(rest))),
        "compact" => Ok(store.compact(alloc, number(rest))?.to_string(alloc)?),
        _ => call(store, alloc, asked),
    }
}
