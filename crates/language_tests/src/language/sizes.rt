use super::{HEAD, RUN, counted, each_fault_holds, fault_of, text, told_fault};
use mesh_base::Memory;
use scenario_lang::Mode;
use std::alloc::Global;
use test_cases::{Answers, Wrong, each_line_holds};

const KEYS_AND_VALUES: &str = "\
raw east delete {1024:a}| => none
raw east delete {1025:a}| => 4 TooLong
raw west delete {1025:a}| => 4 UnknownCluster
raw east put cilium/state/nodes/v1/east/n2 {32768:a}| => none
raw east put cilium/state/nodes/v1/east/n2 {32769:a}| => 4 TooLong
raw east put cilium/state/nodes/v1/east/n2 %4{32769:a}| => 4 TooLong
raw east put cilium/state/nodes/v1/east/n2 %4 {32769:a}| => 4 Words
";

#[test]
fn keys_and_values_have_their_sizes(rt: HostRuntime) -> Result<(), Wrong> {
    each_fault_holds(rt.alloc(), Mode::Step, HEAD, KEYS_AND_VALUES)
}

const LINES: &str = "\
#{65535:a}| => none
\t{65536:a}| => 4 TooLong
{65537:\t} => 4 TooLong
{65536: } => 4 Words
";

#[test]
fn lines_have_their_size(rt: HostRuntime) -> Result<(), Wrong> {
    each_fault_holds(rt.alloc(), Mode::Step, HEAD, LINES)
}

fn remote_line(alloc: Global, remote: usize) -> Result<String, Memory> {
    Ok(format!(in alloc; "remote r{remote} 1 direct|")?)
}

/// The lines of so many remotes, from `r0` on.
fn remote_lines(alloc: Global, count: usize) -> Result<String, Memory> {
    let mut lines = String::new(alloc);
    for remote in 0..count {
        lines.push_str(remote_line(alloc, remote)?.as_str())?;
    }
    Ok(lines)
}

/// Answers the first fault of lines behind so many remotes.
#[derive(Drop)]
struct Remotes {
    mode: Mode,
}

impl Answers for Remotes {
    fn answer(&mut self, alloc: Global, asked: &str) -> Result<String, Memory> {
        let Some((count, lines)) = counted(asked) else {
            return Ok("no count".to_string(alloc)?);
        };
        let remotes = remote_lines(alloc, count)?;
        let written = format!(in alloc; "mesh 1|local home 9|{remotes}{lines}")?;
        let text = text(alloc, written.as_str())?;
        told_fault(alloc, fault_of(alloc, self.mode, text.as_bytes())?)
    }
}

const REMOTES: &str = "\
255: => none
255:turn agent r254 all| => none
256: => 258 TooManyRemotes
255:remote r7 1 direct| => 258 Repeated
255:remote r256 0 direct| => 258 Number
";

const REMOTES_ON_THREADS: &str = "\
32: => none
33: => 35 TooManyRemotes
";

#[test]
fn there_are_at_most_255_remotes(rt: HostRuntime) -> Result<(), Wrong> {
    each_line_holds(&mut Remotes { mode: Mode::Step }, rt.alloc(), REMOTES)?;
    each_line_holds(&mut Remotes { mode: RUN }, rt.alloc(), REMOTES_ON_THREADS)
}

/// Comments of 60,002 bytes and then empty lines, so many bytes together.
fn comments(alloc: Global, bytes: usize) -> Result<String, Memory> {
    let comment = text(alloc, "#{60000:a}|")?;
    let mut comments = comment.as_str().repeat(alloc, bytes / 60_002)?;
    comments.push_str("\n".repeat(alloc, bytes % 60_002)?.as_str())?;
    Ok(comments)
}

/// Answers the first fault of a text of so many bytes, where comments and empty lines follow the
/// lines.
#[derive(Drop)]
struct Filled {
    mode: Mode,
}

impl Answers for Filled {
    fn answer(&mut self, alloc: Global, asked: &str) -> Result<String, Memory> {
        let Some((bytes, lines)) = counted(asked) else {
            return Ok("no count".to_string(alloc)?);
        };
        let written = format!(in alloc; "{HEAD}{lines}")?;
        let mut text = text(alloc, written.as_str())?;
        let comments = comments(alloc, bytes.saturating_sub(text.len()))?;
        text.push_str(comments.as_str())?;
        told_fault(alloc, fault_of(alloc, self.mode, text.as_bytes())?)
    }
}

const WEIGHTS: &str = "\
65536:{1023:report|} => none
65537:{1023:report|} => 0 TooHeavy
65536:{1024:report|} => 0 TooHeavy
65536:{1024:start east|} => 0 TooHeavy
65536:{1024:compact home 1|} => 0 TooHeavy
65536:{1024:link east agent down|} => 0 TooHeavy
65536:{1024:link east agent up|} => none
65536:{1023:fail east agent 0 after|} => none
65536:{1024:fail east agent 0 after|} => 0 TooHeavy
65536:{1023:restart agent|} => none
65537:{1023:restart agent|} => 0 TooHeavy
65536:{1024:turn agent east all|} => none
65536:{1024:tick 5|} => none
";

const WEIGHTS_ON_THREADS: &str = "\
65536:{1024:start east|} => 1027 Mode
";

#[test]
fn heavy_lines_want_a_short_text(rt: HostRuntime) -> Result<(), Wrong> {
    each_line_holds(&mut Filled { mode: Mode::Step }, rt.alloc(), WEIGHTS)?;
    each_line_holds(&mut Filled { mode: RUN }, rt.alloc(), WEIGHTS_ON_THREADS)
}

const TEXTS: &str = "\
16777216:{3:report|} => none
16777216:what| => 4 Words
16777217:what| => 0 TooLong
";

#[test]
fn a_text_has_its_size(rt: HostRuntime) -> Result<(), Wrong> {
    each_line_holds(&mut Filled { mode: Mode::Step }, rt.alloc(), TEXTS)
}
