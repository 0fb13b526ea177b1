// What a view was handed, and how it stands then.

use crate::words::{first_word, number};
use key_paths::Hop;
use mesh_base::{Bytes, Items, Memory};
use mesh_text::ClusterName;
use record_check::Limit;
use relist_merge::{Phase, ReadRecord, Reading, View, read_delivery};
use std::alloc::Global;
use std::test::Fail;
use store_api::{Batch, Change, Delivery, Listing, Pair, Revision};
use test_cases::{Answers, Wrong, each_line_holds};

/// The config, the marks of the four kinds and two nodes, each with its bit in a set of names.
const NAMES: [(u8, u8); 7] = [
    (b'c', 1),
    (b'1', 2),
    (b'2', 4),
    (b'3', 8),
    (b'4', 16),
    (b'a', 32),
    (b'b', 64),
];

/// The names that a synced source has.
const SYNCED: u8 = 31;

fn key_text(name: u8) -> &'static str {
    match name {
        b'c' => "cilium/cluster-config/east",
        b'1' => "cilium/synced/east/cilium/state/nodes/v1",
        b'2' => "cilium/synced/east/cilium/state/services/v1",
        b'3' => "cilium/synced/east/cilium/state/identities/v1",
        b'4' => "cilium/synced/east/cilium/state/ip/v1",
        b'a' => "cilium/state/nodes/v1/east/a",
        b'b' => "cilium/state/nodes/v1/east/b",
        _ => "cilium/cuts/v1/east",
    }
}

fn value_text(name: u8) -> &'static str {
    match name {
        b'c' =>
            "{\"id\":1,\"capabilities\":{\"syncedCanaries\":true,\"maxConnectedClusters\":255}}",
        b'a' => "{\"Name\":\"a\",\"Cluster\":\"east\",\"ClusterID\":1}",
        b'b' => "{\"Name\":\"b\",\"Cluster\":\"east\",\"ClusterID\":1}",
        _ => "7",
    }
}

fn key(alloc: Global, name: u8) -> Result<Bytes, Memory> {
    Ok(Bytes::from_slice(alloc, key_text(name).as_bytes())?)
}

fn value(alloc: Global, name: u8) -> Result<Bytes, Memory> {
    Ok(Bytes::from_slice(alloc, value_text(name).as_bytes())?)
}

/// The pairs of the names at a revision, as `7 c1234a`.
fn listing(alloc: Global, words: &str) -> Result<Delivery, Memory> {
    let (at, names) = first_word(words);
    let mut pairs = Items::new(alloc);
    for name in names.as_bytes() {
        let key = key(alloc, *name)?;
        let value = value(alloc, *name)?;
        pairs.push(Pair { key, value })?;
    }
    let at = number(at);
    Ok(Delivery::Listing(Listing { at, pairs }))
}

fn first_byte(name: &str) -> u8 {
    name.as_bytes().first().copied().unwrap_or(b'-')
}

fn put(alloc: Global, name: u8) -> Result<Change, Memory> {
    let key = key(alloc, name)?;
    let value = value(alloc, name)?;
    Ok(Change::Put {
        key,
        value,
        lease: None,
    })
}

fn delete(alloc: Global, name: u8) -> Result<Change, Memory> {
    let key = key(alloc, name)?;
    Ok(Change::Delete { key })
}

/// A revision of one change, as `10+b` and `11-a`.
fn revision(alloc: Global, word: &str) -> Result<Revision, Memory> {
    let (at, change) = match word.split_once("+") {
        Some((at, name)) => (at, put(alloc, first_byte(name))?),
        None => {
            let (at, name) = word.split_once("-").unwrap_or((word, ""));
            (at, delete(alloc, first_byte(name))?)
        }
    };
    let mut changes = Items::new(alloc);
    changes.push(change)?;
    Ok(Revision {
        number: number(at),
        writer: 0,
        changes,
    })
}

/// Every change up to a revision, as `11 10+b 11-a`.
fn batch(alloc: Global, words: &str) -> Result<Delivery, Memory> {
    let (upto, words) = first_word(words);
    let mut revisions = Items::new(alloc);
    for word in words.split(" ") {
        revisions.push(revision(alloc, word)?)?;
    }
    let upto = number(upto);
    Ok(Delivery::Batch(Batch { upto, revisions }))
}

/// Hands the view a listing for which it makes room before.
fn take(view: &mut View, alloc: Global, words: &str) -> Result<(), Memory> {
    let delivery = read_delivery(alloc, Limit::Small, listing(alloc, words)?)?;
    view.reserve(alloc, &delivery)?;
    view.take(delivery);
    Ok(())
}

/// Takes no memory.
fn step(view: &mut View, verb: &str, words: &str) {
    match verb {
        "begin" => view.begin_list(),
        "lose" => view.lose(),
        "move" => view.move_cursor(number(words)),
        _ => {}
    }
}

/// Hands the view what is asked, where it is something that a view is handed.
fn hand(view: &mut View, alloc: Global, asked: &str) -> Result<(), Memory> {
    let (verb, words) = first_word(asked);
    match verb {
        "list" => view.follow(alloc, listing(alloc, words)?),
        "batch" => view.follow(alloc, batch(alloc, words)?),
        "lost" => view.follow(alloc, Delivery::Lost),
        "take" => take(view, alloc, words),
        _ => {
            step(view, verb, words);
            Ok(())
        }
    }
}

/// How a view stands to its store, and sets of names: those it has, and those among them that were
/// listed or put since its last list began.
#[derive(Clone, Copy, PartialEq, Eq)]
struct Standing {
    phase: Phase,
    cursor: u64,
    sighted: u8,
    fresh: u8,
}

fn standing_of(view: &View, alloc: Global) -> Result<Standing, Memory> {
    let mut sighted = 0;
    let mut fresh = 0;
    for (name, bit) in NAMES {
        let key = key(alloc, name)?;
        if view.get(&key).is_some() {
            sighted |= bit;
        }
        if view.is_fresh(&key) {
            fresh |= bit;
        }
    }
    Ok(Standing {
        phase: view.phase(),
        cursor: view.cursor(),
        sighted,
        fresh,
    })
}

fn phase_words(phase: Phase) -> &'static str {
    match phase {
        Phase::Waiting => "waiting",
        Phase::Held => "held",
        Phase::CaughtUp => "caught up",
    }
}

/// In words; a name that is not fresh has a mark behind it.
fn standing_words(alloc: Global, standing: Standing) -> Result<String, Memory> {
    let mut words = format!(in alloc; "{} at {}:", phase_words(standing.phase), standing.cursor)?;
    for (name, bit) in NAMES {
        if standing.sighted & bit != 0 {
            words.push_str(" ")?;
            words.push(name as char)?;
            if standing.fresh & bit == 0 {
                words.push_str("'")?;
            }
        }
    }
    Ok(words)
}

fn config_word(config: Option<&Reading>) -> &'static str {
    match config {
        Some(Reading::Config(Ok(_))) => "valid",
        Some(_) => "faulty",
        None => "none",
    }
}

fn read_config_word(view: &View, alloc: Global) -> Result<&'static str, Memory> {
    Ok(match view.read_config(alloc)? {
        Some(Ok(_)) => "valid",
        Some(Err(_)) => "faulty",
        None => "none",
    })
}

fn push_record(words: &mut String, alloc: Global, record: &ReadRecord) -> Result<(), Memory> {
    let key = String::from_utf8_lossy(alloc, record.key.as_slice())?;
    words.push_str(key.as_str())?;
    words.push_str(if record.reading.is_ok() {
        " valid;"
    } else {
        " faulty;"
    })?;
    Ok(())
}

fn records_words(view: &View, alloc: Global) -> Result<String, Memory> {
    let mut words = String::new(alloc);
    for record in view.read_records(alloc)?.as_slice() {
        push_record(&mut words, alloc, record)?;
    }
    Ok(words)
}

/// What the view tells of itself, and where nothing is asked how it stands.
fn words_of(view: &mut View, alloc: Global, asked: &str) -> Result<String, Memory> {
    match asked {
        "caught up" => Ok(view.is_caught_up().to_string(alloc)?),
        "finish" => Ok(view.finish_sync().to_string(alloc)?),
        "config" => Ok(config_word(view.config()).to_string(alloc)?),
        "read config" => Ok(read_config_word(view, alloc)?.to_string(alloc)?),
        "pairs" => Ok(view.pairs(alloc)?.len().to_string(alloc)?),
        "records" => records_words(view, alloc),
        "cut" => Ok(format!(in alloc; "{:?}", view.cut())?),
        _ => standing_words(alloc, standing_of(view, alloc)?),
    }
}

#[derive(Drop)]
struct Viewing {
    view: View,
}

impl Answers for Viewing {
    fn answer(&mut self, alloc: Global, asked: &str) -> Result<String, Memory> {
        hand(&mut self.view, alloc, asked)?;
        words_of(&mut self.view, alloc, asked)
    }
}

fn view_of_east(alloc: Global, hop: Hop) -> Result<Viewing, Fail> {
    let east = ClusterName::read(alloc, b"east")?;
    Ok(Viewing {
        view: View::new(alloc, east, hop, Limit::Small),
    })
}

fn each_line_of_a_view_holds(alloc: Global, hop: Hop, lines: &str) -> Result<(), Fail> {
    let mut viewing = view_of_east(alloc, hop)?;
    each_line_holds(&mut viewing, alloc, lines)?;
    Ok(())
}

#[test]
fn a_new_view_waits_without_entries(rt: HostRuntime) -> Result<(), Fail> {
    let lines = "standing => waiting at 0:\n\
        config => none";
    each_line_of_a_view_holds(rt.alloc(), Hop::State, lines)
}

#[test]
fn a_listing_with_all_marks_catches_up(rt: HostRuntime) -> Result<(), Fail> {
    let lines = "list 7 c1234a => caught up at 7: c 1 2 3 4 a\n\
        caught up => true";
    each_line_of_a_view_holds(rt.alloc(), Hop::State, lines)
}

#[test]
fn a_listing_without_all_marks_is_held(rt: HostRuntime) -> Result<(), Fail> {
    let lines = "list 3 c1a => held at 3: c 1 a";
    each_line_of_a_view_holds(rt.alloc(), Hop::State, lines)
}

#[test]
fn a_list_cut_short_by_a_lost_connection_drops_nothing(rt: HostRuntime) -> Result<(), Fail> {
    let lines = "list 7 c1234a => caught up at 7: c 1 2 3 4 a\n\
        begin => waiting at 7: c' 1' 2' 3' 4' a'\n\
        lose => waiting at 7: c' 1' 2' 3' 4' a'\n\
        finish => false";
    each_line_of_a_view_holds(rt.alloc(), Hop::State, lines)
}

#[test]
fn a_restarted_exporter_is_held_with_what_was_sighted(rt: HostRuntime) -> Result<(), Fail> {
    let lines = "list 7 c1234a => caught up at 7: c 1 2 3 4 a\n\
        lost => waiting at 7: c 1 2 3 4 a\n\
        list 9 c => held at 9: c 1' 2' 3' 4' a'";
    each_line_of_a_view_holds(rt.alloc(), Hop::State, lines)
}

#[test]
fn what_is_unlisted_goes_once_the_restarted_exporter_is_synced(
    rt: HostRuntime,
) -> Result<(), Fail> {
    let lines = "list 7 c1234a => caught up at 7: c 1 2 3 4 a\n\
        lost => waiting at 7: c 1 2 3 4 a\n\
        list 9 c => held at 9: c 1' 2' 3' 4' a'\n\
        batch 12 10+1 11+2 12+3 => held at 12: c 1 2 3 4' a'\n\
        batch 13 13+4 => caught up at 13: c 1 2 3 4";
    each_line_of_a_view_holds(rt.alloc(), Hop::State, lines)
}

#[test]
fn a_deletion_in_sight_counts_at_once(rt: HostRuntime) -> Result<(), Fail> {
    let lines = "list 7 c1234a => caught up at 7: c 1 2 3 4 a\n\
        lost => waiting at 7: c 1 2 3 4 a\n\
        list 9 c => held at 9: c 1' 2' 3' 4' a'\n\
        batch 11 10+b 11-a => held at 11: c 1' 2' 3' 4' b";
    each_line_of_a_view_holds(rt.alloc(), Hop::State, lines)
}

// A pull from behind the cursor that is compacted is refused, and the reader lists anew.
#[test]
fn a_compaction_in_front_of_the_cursor_costs_a_new_list(rt: HostRuntime) -> Result<(), Fail> {
    let lines = "list 7 c1234a => caught up at 7: c 1 2 3 4 a\n\
        lost => waiting at 7: c 1 2 3 4 a\n\
        list 10 c1234ab => caught up at 10: c 1 2 3 4 a b";
    each_line_of_a_view_holds(rt.alloc(), Hop::State, lines)
}

#[test]
fn a_compaction_behind_the_cursor_changes_nothing(rt: HostRuntime) -> Result<(), Fail> {
    let lines = "list 7 c1234a => caught up at 7: c 1 2 3 4 a\n\
        batch 8 8+b => caught up at 8: c 1 2 3 4 a b";
    each_line_of_a_view_holds(rt.alloc(), Hop::State, lines)
}

#[test]
fn what_has_room_is_taken_whole(rt: HostRuntime) -> Result<(), Fail> {
    let lines = "take 7 c1234a => caught up at 7: c 1 2 3 4 a\n\
        move 8 => caught up at 8: c 1 2 3 4 a";
    each_line_of_a_view_holds(rt.alloc(), Hop::State, lines)
}

#[test]
fn a_view_tells_its_pairs_its_records_and_its_config(rt: HostRuntime) -> Result<(), Fail> {
    let lines = "list 7 c1234a => caught up at 7: c 1 2 3 4 a\n\
        pairs => 6\n\
        records => cilium/state/nodes/v1/east/a valid;\n\
        config => valid\n\
        read config => valid";
    each_line_of_a_view_holds(rt.alloc(), Hop::State, lines)
}

#[test]
fn a_view_of_a_cache_tells_its_cut(rt: HostRuntime) -> Result<(), Fail> {
    let lines = "cut => None\n\
        list 3 cq => held at 3: c\n\
        cut => Some(7)";
    each_line_of_a_view_holds(rt.alloc(), Hop::Cache, lines)
}

/// What is live of the names, and what was sighted of them by the definition: what the last span
/// met, whether it was synced, and what the older spans showed.
#[derive(Clone, Copy)]
struct Plain {
    live: u8,
    older: u8,
    met: u8,
    is_up: bool,
    is_open: bool,
    revision: u64,
    /// The last revision in sight, and what was live there.
    cursor: u64,
    fresh: u8,
}

/// An empty store, of which nothing was sighted.
const NOTHING: Plain = Plain {
    live: 0,
    older: 0,
    met: 0,
    is_up: false,
    is_open: false,
    revision: 1,
    cursor: 0,
    fresh: 0,
};

fn is_synced(live: u8) -> bool {
    live & SYNCED == SYNCED
}

fn sighted(plain: &Plain) -> u8 {
    if plain.is_up {
        plain.live
    } else {
        plain.older & !plain.met | plain.live & plain.met
    }
}

fn plain_standing(plain: &Plain) -> Standing {
    let phase = if !plain.is_open {
        Phase::Waiting
    } else if plain.is_up {
        Phase::CaughtUp
    } else {
        Phase::Held
    };
    Standing {
        phase,
        cursor: plain.cursor,
        sighted: sighted(plain),
        fresh: plain.fresh,
    }
}

fn closed(plain: &Plain) -> Plain {
    Plain {
        older: sighted(plain),
        met: 0,
        is_up: false,
        is_open: false,
        ..*plain
    }
}

fn listed(plain: &Plain) -> Plain {
    Plain {
        older: sighted(plain),
        met: plain.live,
        is_up: is_synced(plain.live),
        is_open: true,
        cursor: plain.revision,
        fresh: plain.live,
        ..*plain
    }
}

/// One name is put or deleted, in sight where the span is open.
fn changed(plain: &Plain, bit: u8) -> Plain {
    let live = plain.live ^ bit;
    let revision = plain.revision.saturating_add(1);
    if !plain.is_open {
        return Plain {
            live,
            revision,
            ..*plain
        };
    }
    Plain {
        live,
        revision,
        met: plain.met | bit,
        is_up: plain.is_up || is_synced(live),
        cursor: revision,
        fresh: live,
        ..*plain
    }
}

fn list_line(alloc: Global, plain: &Plain) -> Result<String, Memory> {
    let mut line = format!(in alloc; "list {} ", plain.revision)?;
    for (name, bit) in NAMES {
        if plain.live & bit != 0 {
            line.push(name as char)?;
        }
    }
    Ok(line)
}

/// What the view is handed of a change; nothing where the span isn't open.
fn change_line(alloc: Global, plain: &Plain, name: u8, bit: u8) -> Result<String, Memory> {
    if !plain.is_open {
        return Ok(String::new(alloc));
    }
    let at = plain.revision;
    let sign = if plain.live & bit != 0 { '+' } else { '-' };
    Ok(format!(in alloc; "batch {at} {at}{sign}{}", name as char)?)
}

/// A number below 7 changes that name; 7 and 8 lose the connection, and others list. Answers with
/// what the view is handed.
fn next(alloc: Global, plain: &mut Plain, number: u32) -> Result<String, Memory> {
    if number < 7 {
        let (name, bit) = NAMES[number as usize];
        *plain = changed(plain, bit);
        return change_line(alloc, plain, name, bit);
    }
    if number < 9 {
        *plain = closed(plain);
        return Ok("lost".to_string(alloc)?);
    }
    *plain = listed(plain);
    list_line(alloc, plain)
}

/// Takes one step, behind which the view must stand as the plain program.
fn step_holds(alloc: Global, view: &mut View, plain: &mut Plain, number: u32) -> Result<(), Wrong> {
    let line = next(alloc, plain, number)?;
    hand(view, alloc, line.as_str())?;
    if standing_of(view, alloc)? == plain_standing(plain) {
        return Ok(());
    }
    Err(Wrong::Line(line))
}

/// The same, of the steps that a sequence of numbers chooses.
fn each_step_holds(alloc: Global, seed: u32) -> Result<(), Fail> {
    let mut viewing = view_of_east(alloc, Hop::State)?;
    let mut plain = NOTHING;
    let mut number = seed;
    for _ in 0..200u32 {
        number = number.wrapping_mul(1_664_525).wrapping_add(1_013_904_223);
        step_holds(alloc, &mut viewing.view, &mut plain, (number >> 16) % 11)?;
    }
    Ok(())
}

#[test]
fn a_view_stays_beside_a_plain_program(rt: HostRuntime) -> Result<(), Fail> {
    for seed in 0..30u32 {
        each_step_holds(rt.alloc(), seed)?;
    }
    Ok(())
}
