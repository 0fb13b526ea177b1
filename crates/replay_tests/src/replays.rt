ghost use Rattle.std.specs.Prelude.{◌≡◌, length, map, All};
ghost use Rattle.mesh_world.specs.Goes.{IsOpen};

mod bytewise;
mod journals;

use bytewise::{BytewiseSink, BytewiseSource};
use journals::journaled_stores;
use mesh_base::Memory;
use scenario_replay::{Status, fresh_stores, mesh_steps};
use std::alloc::Global;
use std::test::Fail;
use store_api::{BytesSink, BytesSource, Sink, Source, StoreAdmin};
use test_cases::{Answers, Wrong, each_line_holds};

// A node that is exported and read.
const FIRST_NODE: &str = "mesh 1\n\
local home 9\n\
remote east 1 direct\n\
node east n1 10.0.0.1\n\
start east\n\
export east all\n\
turn agent east all\n\
report\n";

const FIRST_REPORT: &str = "report 1\n\
source east direct 7\n\
node east n1 InternalIP=10.0.0.1\n\
end\n";

/// How a replay by this word ends.
fn replay<R: Source, W: Sink, S: StoreAdmin>(
    alloc: Global,
    word: &str,
    source: &mut R,
    sink: &mut W,
    stores: &mut [S],
) -> Result<Status, Memory>
    requires many { length stores.old ≡ 256 }
    requires open { All IsOpen (map S.meaning stores.old) }
{
    let words = vec![in alloc; String::from_str(alloc, word)?]?;
    Ok(mesh_steps(alloc, words.as_slice(), source, sink, stores))
}

/// What a replay by this word comes to: its status and then what is written, with `|` for the end of each
/// line.
fn told<S: StoreAdmin>(
    alloc: Global,
    word: &str,
    mut source: BytesSource,
    mut sink: BytesSink,
    stores: &mut [S],
) -> Result<String, Memory>
    requires many { length stores.old ≡ 256 }
    requires open { All IsOpen (map S.meaning stores.old) }
{
    let status = replay(alloc, word, &mut source, &mut sink, stores)?;
    let written = String::from_utf8_lossy(alloc, sink.bytes())?;
    let lines = format!(in alloc; "{status:?}\n{written}")?;
    Ok(lines.replace(alloc, "\n", "|")?)
}

/// A source of these bytes that never fails.
fn source_of(alloc: Global, bytes: &[u8]) -> Result<BytesSource, Memory> {
    Ok(BytesSource::new(Vec::from_slice(alloc, bytes)?, Vec::new(alloc)))
}

/// A sink with room for every report that stands here.
fn roomy_sink(alloc: Global) -> Result<BytesSink, Memory> {
    BytesSink::new(alloc, 1000, Vec::new(alloc))
}

/// What a replay by this word over these streams comes to, on fresh stores.
fn told_on_fresh(
    alloc: Global,
    word: &str,
    source: BytesSource,
    sink: BytesSink,
) -> Result<String, Memory> {
    let mut stores = fresh_stores(alloc)?;
    told(alloc, word, source, sink, stores.as_mut_slice())
}

/// What a replay of the bytes by this word comes to, on fresh stores.
fn told_of_bytes(alloc: Global, word: &str, bytes: &[u8]) -> Result<String, Memory> {
    let source = source_of(alloc, bytes)?;
    told_on_fresh(alloc, word, source, roomy_sink(alloc)?)
}

/// Asked a word and the text that is replayed by it.
#[derive(Drop)]
struct Texts;

impl Answers for Texts {
    fn answer(&mut self, alloc: Global, asked: &str) -> Result<String, Memory> {
        let (word, lines) = asked.split_once(" ").unwrap_or((asked, ""));
        let text = lines.replace(alloc, "|", "\n")?;
        told_of_bytes(alloc, word, text.as_bytes())
    }
}

const TEXTS: &str =
    "steps mesh 1|local home 9|remote east 1 direct|node east n1 10.0.0.1|start east|export east all|turn agent east all|report| => Usage|usage: step | check | generate <n> | run <probes>|\n\
step mesh 1|local home 9|remote east 1 direct|repor => Scenario { line: 4, kind: Words }|line 4 words|\n\
";

#[test]
fn other_words_and_texts_are_answered_by_a_line(rt: HostRuntime) -> Result<(), Wrong> {
    each_line_holds(&mut Texts, rt.alloc(), TEXTS)
}

fn number(word: &str) -> u32 {
    word.parse::<u32>().unwrap_or(0)
}

/// A text whose raw value has so many letters.
fn long_value(alloc: Global, letters: usize) -> Result<Vec<u8>, Memory> {
    let before =
        "mesh 1\nlocal home 9\nremote east 1 direct\nraw east put cilium/state/nodes/v1/east/n2 ";
    let mut text = Vec::from_slice(alloc, before.as_bytes())?;
    let value = vec![in alloc; b'a'; letters]?;
    text.extend_from_slice(value.as_slice())?;
    text.extend_from_slice(b"\nturn agent east all\nreport\n")?;
    Ok(text)
}

fn long_text(alloc: Global, part: &str, length: usize) -> Result<Vec<u8>, Memory> {
    match part {
        "letters" => long_value(alloc, length),
        _ => Ok(vec![in alloc; b'\n'; length]?),
    }
}

/// Asked for a text with a raw value of so many letters, or of so many newlines.
#[derive(Drop)]
struct Lengths;

impl Answers for Lengths {
    fn answer(&mut self, alloc: Global, asked: &str) -> Result<String, Memory> {
        let (part, length) = asked.split_once(" ").unwrap_or((asked, ""));
        let text = long_text(alloc, part, number(length) as usize)?;
        told_of_bytes(alloc, "step", text.as_slice())
    }
}

const VALUES: &str = "letters 32768 => Done|report 1|source east direct held 2|end|\n\
letters 32769 => Scenario { line: 4, kind: TooLong }|line 4 too_long|\n\
";

#[test]
fn a_raw_value_has_32_768_bytes_at_most(rt: HostRuntime) -> Result<(), Wrong> {
    each_line_holds(&mut Lengths, rt.alloc(), VALUES)
}

const INPUTS: &str =
    "newlines 16777216 => Scenario { line: 16777217, kind: Header }|line 16777217 header|\n\
newlines 16777217 => Scenario { line: 0, kind: TooLong }|line 0 too_long|\n\
";

#[test]
fn an_input_has_16_777_216_bytes_at_most(rt: HostRuntime) -> Result<(), Wrong> {
    each_line_holds(&mut Lengths, rt.alloc(), INPUTS)
}

/// What a replay of the first node by this word comes to, where the read and the write of these numbers fail.
fn told_over(
    alloc: Global,
    word: &str,
    read: u64,
    write: u64,
    room: usize,
) -> Result<String, Memory> {
    let bytes = Vec::from_slice(alloc, FIRST_NODE.as_bytes())?;
    let source = BytesSource::new(bytes, vec![in alloc; read]?);
    let sink = BytesSink::new(alloc, room, vec![in alloc; write]?)?;
    told_on_fresh(alloc, word, source, sink)
}

/// Asked a word, the numbers of the read and of the write that fail, and the sink's room.
#[derive(Drop)]
struct Streams;

impl Answers for Streams {
    fn answer(&mut self, alloc: Global, asked: &str) -> Result<String, Memory> {
        let mut words = asked.split(" ");
        let word = words.next().unwrap_or("");
        let read = number(words.next().unwrap_or("")) as u64;
        let write = number(words.next().unwrap_or("")) as u64;
        let room = number(words.next().unwrap_or("")) as usize;
        told_over(alloc, word, read, write, room)
    }
}

const FAULTS: &str = "step 0 9 1000 => ReadFault|\n\
step 1 9 1000 => ReadFault|\n\
step 9 0 1000 => WriteFault|\n\
step 9 9 10 => WriteFault|report 1|s\n\
steps 9 0 1000 => WriteFault|\n\
steps 0 9 1000 => Usage|usage: step | check | generate <n> | run <probes>|\n\
";

#[test]
fn a_fault_of_the_outside_is_told(rt: HostRuntime) -> Result<(), Wrong> {
    each_line_holds(&mut Streams, rt.alloc(), FAULTS)
}

/// The status and what is written, where the write of this number fails.
fn replay_bytewise(alloc: Global, failing: u64) -> Result<(Status, Vec<u8>), Memory> {
    let mut source = BytewiseSource {
        inner: source_of(alloc, FIRST_NODE.as_bytes())?,
    };
    let mut sink = BytewiseSink {
        inner: BytesSink::new(alloc, 1000, vec![in alloc; failing]?)?,
    };
    let mut stores = fresh_stores(alloc)?;
    let status = replay(alloc, "step", &mut source, &mut sink, stores.as_mut_slice())?;
    Ok((status, Vec::from_slice(alloc, sink.inner.bytes())?))
}

#[test]
fn bytes_that_come_and_go_one_by_one_give_the_same_report_up_to_the_write_that_fails(
    rt: HostRuntime,
) -> Result<(), Fail> {
    let report = FIRST_REPORT.as_bytes();
    for failing in 0..report.len() + 2 {
        let (status, written) = replay_bytewise(rt.alloc(), failing as u64)?;
        let (want, front) = if failing < report.len() {
            (Status::WriteFault, &report[..failing])
        } else {
            (Status::Done, report)
        };
        assert_eq!(rt; status, want, "write {failing}");
        assert_eq!(rt; written.as_slice(), front, "write {failing}");
    }
    Ok(())
}

/// What a replay of the text comes to on stores of which one holds records from a journal.
fn told_of_journal(alloc: Global, text: &str) -> Result<String, Memory> {
    let source = source_of(alloc, text.as_bytes())?;
    let mut stores = journaled_stores(alloc)?;
    told(
        alloc,
        "step",
        source,
        roomy_sink(alloc)?,
        stores.as_mut_slice(),
    )
}

#[test]
fn stores_may_hold_records_already(rt: HostRuntime) -> Result<(), Fail> {
    let text = "mesh 1\nlocal home 9\nremote east 1 direct\nturn agent east all\nreport\n";
    let told = told_of_journal(rt.alloc(), text)?;
    assert_eq!(rt;
        told.as_str(),
        "Done|report 1|source east direct 3|node east n7|end|"
    );
    Ok(())
}
