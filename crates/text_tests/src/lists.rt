use mesh_base::{Bytes, Items, Memory};
use std::alloc::Global;
use test_cases::{Answers, Wrong, each_line_holds};

fn text_of(alloc: Global, bytes: &Bytes) -> Result<String, Memory> {
    Ok(String::from_utf8_lossy(alloc, bytes.as_slice())?)
}

/// Bytes that grow by a byte and by more bytes, as `east 2 /n1`, and the copy made before.
#[derive(Drop)]
struct Growing;

fn grow(bytes: &mut Bytes, byte: u8, more: &str) -> Result<(), Memory> {
    bytes.push(byte)?;
    bytes.extend_from_slice(more.as_bytes())?;
    Ok(())
}

fn both_told(alloc: Global, copy: &Bytes, grown: &Bytes) -> Result<String, Memory> {
    let order = if copy < grown { "before" } else { "not before" };
    let len = grown.len();
    let copy = text_of(alloc, copy)?;
    let grown = text_of(alloc, grown)?;
    Ok(format!(in alloc; "{copy} {order} {grown}, {len} bytes")?)
}

fn grown(alloc: Global, start: &str, byte: u8, more: &str) -> Result<String, Memory> {
    let mut bytes = Bytes::from_slice(alloc, start.as_bytes())?;
    let copy = bytes.clone()?;
    grow(&mut bytes, byte, more)?;
    both_told(alloc, &copy, &bytes)
}

impl Answers for Growing {
    fn answer(&mut self, alloc: Global, asked: &str) -> Result<String, Memory> {
        let (start, rest) = asked.split_once(" ").unwrap_or((asked, ""));
        let (byte, more) = rest.split_once(" ").unwrap_or((rest, ""));
        match byte.as_bytes() {
            [byte] => grown(alloc, start, *byte, more),
            _ => Ok("no byte".to_string(alloc)?),
        }
    }
}

#[test]
fn bytes_grow_and_compare_in_byte_order(rt: HostRuntime) -> Result<(), Wrong> {
    let lines = "east 2 /n1 => east before east2/n1, 8 bytes";
    each_line_holds(&mut Growing, rt.alloc(), lines)
}

/// Items that are copied, as `east west`, before one more is put behind them, as `+ north`.
#[derive(Drop)]
struct Copying;

fn put_word(items: &mut Items<Bytes>, alloc: Global, word: &str) -> Result<(), Memory> {
    let item = Bytes::from_slice(alloc, word.as_bytes())?;
    items.push(item)?;
    Ok(())
}

fn items_of(alloc: Global, words: &str) -> Result<Items<Bytes>, Memory> {
    let mut items = Items::new(alloc);
    for word in words.split(' ') {
        put_word(&mut items, alloc, word)?;
    }
    Ok(items)
}

fn told(alloc: Global, items: &Items<Bytes>) -> Result<String, Memory> {
    let len = items.len();
    let mut told = format!(in alloc; "{len}:")?;
    for item in items.as_slice() {
        told.push_str(" ")?;
        told.push_str(text_of(alloc, item)?.as_str())?;
    }
    Ok(told)
}

impl Answers for Copying {
    fn answer(&mut self, alloc: Global, asked: &str) -> Result<String, Memory> {
        let (words, more) = asked.split_once(" + ").unwrap_or((asked, ""));
        let mut items = items_of(alloc, words)?;
        let copy = items.clone()?;
        put_word(&mut items, alloc, more)?;
        told(alloc, &copy)
    }
}

#[test]
fn items_are_copied_with_what_they_hold(rt: HostRuntime) -> Result<(), Wrong> {
    let lines = "east west + north => 2: east west";
    each_line_holds(&mut Copying, rt.alloc(), lines)
}

/// Numbers that are put one behind the other.
#[derive(Drop)]
struct Numbers;

impl Answers for Numbers {
    fn answer(&mut self, alloc: Global, asked: &str) -> Result<String, Memory> {
        let mut numbers = Items::new(alloc);
        for word in asked.split(' ') {
            numbers.push(word.parse::<u64>().unwrap_or(0))?;
        }
        let len = numbers.len();
        Ok(format!(in alloc; "{len}: {:?}", numbers.as_slice())?)
    }
}

#[test]
fn items_keep_their_order(rt: HostRuntime) -> Result<(), Wrong> {
    let lines = "3 1 => 2: [3, 1]";
    each_line_holds(&mut Numbers, rt.alloc(), lines)
}
