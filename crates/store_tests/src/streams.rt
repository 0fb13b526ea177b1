use mesh_base::Memory;
use std::alloc::Global;
use std::test::Fail;
use store_api::{BytesSink, BytesSource, Sink, Source};
use test_cases::{Answers, each_line_holds};

// `read` reads into a buffer of two bytes, and `buffer` tells what it holds.
#[derive(Drop)]
struct Reading {
    source: BytesSource,
    buffer: [u8; 2],
}

impl Answers for Reading {
    fn answer(&mut self, alloc: Global, asked: &str) -> Result<String, Memory> {
        match asked {
            "read" => Ok(format!(in alloc; "{:?}", self.source.read(&mut self.buffer))?),
            _ => Ok(format!(in alloc; "{:?}", self.buffer)?),
        }
    }
}

// `write BYTES` writes, and `bytes` tells what the sink holds.
#[derive(Drop)]
struct Writing {
    sink: BytesSink,
}

impl Answers for Writing {
    fn answer(&mut self, alloc: Global, asked: &str) -> Result<String, Memory> {
        match asked.strip_prefix("write ") {
            Some(bytes) => Ok(format!(in alloc; "{:?}", self.sink.write(bytes.as_bytes()))?),
            None => Ok(String::from_utf8_lossy(alloc, self.sink.bytes())?),
        }
    }
}

const READ: &str = "\
read => Ok(2)
buffer => [7, 8]
read => Err(Failed)
read => Ok(1)
buffer => [9, 8]
read => Ok(0)
";

#[test]
fn a_source_gives_its_bytes_once_and_fails_at_the_named_call(rt: HostRuntime) -> Result<(), Fail> {
    let alloc = rt.alloc();
    let mut reading = Reading {
        source: BytesSource::new(vec![in alloc; 7, 8, 9]?, vec![in alloc; 1]?),
        buffer: [0; 2],
    };
    each_line_holds(&mut reading, alloc, READ)?;
    Ok(())
}

const WRITTEN: &str = "\
write ab => Err(Failed)
write ab => Ok(2)
write cd => Ok(1)
write d => Err(Failed)
write  => Ok(0)
bytes => abc
";

#[test]
fn a_sink_takes_what_it_has_room_for_and_then_fails(rt: HostRuntime) -> Result<(), Fail> {
    let alloc = rt.alloc();
    let mut writing = Writing {
        sink: BytesSink::new(alloc, 3, vec![in alloc; 0]?)?,
    };
    each_line_holds(&mut writing, alloc, WRITTEN)?;
    Ok(())
}
