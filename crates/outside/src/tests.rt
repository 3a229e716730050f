// Real files, and sources and sinks in memory that fail at the listed calls.
use crate::{
    Failed, FileSink, FileSource, MemorySink, MemorySource, Sink, Source, StdoutSink, put,
};
use std::alloc::Global;
use std::test::Fail;

#[test]
fn a_real_file_is_written_and_read(rt: HostRuntime) -> Result<(), Fail> {
    let mut sink = FileSink::new(rt.alloc(), &rt, Some("text"));
    put(&mut sink, b"first ")?;
    put(&mut sink, b"second")?;
    sink.finish()?;

    let mut source = FileSource::new(&rt, Some("text"));
    let mut buf = [0u8; 32];
    let count = source.read(&mut buf)?;
    assert_eq!(rt; &buf[..count], b"first second".as_slice());
    assert_eq!(rt; source.read(&mut buf), Ok(0));

    // The file grows behind its end while it is read, and then it is read in buffers of two bytes.
    put(&mut sink, b" third")?;
    sink.finish()?;
    let mut small = [0u8; 4];
    assert_eq!(rt; source.read(&mut small), Ok(4));
    assert_eq!(rt; small.as_slice(), b" thi".as_slice());
    assert_eq!(rt; source.read(&mut small), Ok(2));
    assert_eq!(rt; &small[..2], b"rd".as_slice());
    assert_eq!(rt; source.read(&mut small), Ok(0));

    let mut absent = FileSource::new(&rt, Some("absent"));
    assert_eq!(rt; absent.read(&mut buf), Err(Failed));
    let mut folder = FileSink::new(rt.alloc(), &rt, Some("."));
    assert_eq!(rt; put(&mut folder, b"x"), Err(Failed));
    let mut full = FileSink::new(rt.alloc(), &rt, Some("/dev/full"));
    let _held = put(&mut full, b"x");
    assert_eq!(rt; full.finish(), Err(Failed));
    put(&mut StdoutSink::new(&rt), b"a line of the test\n")?;
    Ok(())
}

// Writes more than is held back, in lines and then in one piece.
fn write_long<K: Sink>(alloc: Global, sink: &mut K) -> Result<(), Fail> {
    let mut piece = Vec::new(alloc);
    for _ in 0..20_000u32 {
        put(sink, b"12345\n")?;
        piece.extend_from_slice(b"12345\n")?;
    }
    put(sink, &piece)?;
    put(sink, b"end\n")?;
    Ok(())
}

// Reads until the end.
fn read_all<S: Source>(alloc: Global, source: &mut S) -> Result<Vec<u8>, Fail> {
    let mut text = Vec::new(alloc);
    let mut buf = [0u8; 4096];
    for _ in 0..1_000u32 {
        let count = source.read(&mut buf)?;
        if count == 0 {
            return Ok(text);
        }
        text.extend_from_slice(&buf[..count])?;
    }
    Ok(text)
}

// The last bytes come without a `finish`, when the sink is dropped.
#[test]
fn a_long_file_is_whole(rt: HostRuntime) -> Result<(), Fail> {
    {
        let mut sink = FileSink::new(rt.alloc(), &rt, Some("long"));
        write_long(rt.alloc(), &mut sink)?;
    }
    let mut source = FileSource::new(&rt, Some("long"));
    let text = read_all(rt.alloc(), &mut source)?;
    let lines = text.as_slice().split(|byte| *byte == b'\n');
    assert_eq!(rt; text.len(), 240_004);
    assert_eq!(rt;
        lines.filter(|line| *line == b"12345".as_slice()).count(),
        40_000
    );
    assert!(rt; text.as_slice().ends_with(b"\nend\n"));
    Ok(())
}

#[test]
fn a_source_in_memory_gives_its_pieces(rt: HostRuntime) -> Result<(), Fail> {
    let alloc = rt.alloc();
    let pieces = vec![in alloc; b"abc".to_vec(alloc)?, Vec::new(alloc), b"d".to_vec(alloc)?]?;
    let mut source = MemorySource::new(pieces, vec![in alloc; 2]?);
    let mut buf = [0u8; 2];
    let answers = [Ok(2), Err(Failed), Ok(1), Ok(1), Ok(0)];
    let texts = ["ab", "ab", "cb", "db", "db"];
    for i in 0..5usize {
        assert_eq!(rt; source.read(&mut buf), answers[i], "call {i}");
        assert_eq!(rt; buf.as_slice(), texts[i].as_bytes(), "call {i}");
    }
    Ok(())
}

#[test]
fn a_sink_in_memory_fails_at_the_listed_calls(rt: HostRuntime) -> Result<(), Fail> {
    let alloc = rt.alloc();
    let mut sink = MemorySink::new(alloc, 2, vec![in alloc; 3, 5]?);
    sink.reserve(100)?;
    assert_eq!(rt; put(&mut sink, b"abcde"), Err(Failed));
    assert_eq!(rt; sink.bytes(), b"abcd".as_slice());
    sink.finish()?;
    assert_eq!(rt; sink.finish(), Err(Failed));
    put(&mut sink, b"e")?;
    assert_eq!(rt; sink.bytes(), b"abcde".as_slice());
    assert_eq!(rt; sink.memory_faults(), 0);
    Ok(())
}
