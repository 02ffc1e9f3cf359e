//! Sources and sinks in memory with their faults.

use base_texts::Name;
use memory_outside::{MemSink, MemSource};
use run_outside::{ReadError, Sink, SinkTarget, Source, WriteError, put_all, read_all};
use std::alloc::Global;
use std::test::Fail;

/// A source with a file of five bytes.
fn source(alloc: Global) -> Result<MemSource, Fail> {
    let mut source = MemSource::new(alloc);
    let name = String::from_str(alloc, "a")?;
    source.add(name, Vec::from_slice(alloc, b"hello")?)?;
    Ok(source)
}

/// Whether so many bytes of the file are read as these.
fn reads(alloc: Global, source: &mut MemSource, count: usize, wanted: &[u8]) -> bool {
    match read_all(alloc, source, "a", count) {
        Ok(bytes) => bytes.as_slice() == wanted,
        Err(_) => false,
    }
}

#[test]
fn a_source_gives_its_files_and_its_faults(rt: HostRuntime) -> Result<(), Fail> {
    let mut source = source(rt.alloc())?;
    source.fail_at(4)?;
    let sizes = [source.size("a"), source.size("b")];
    assert_eq!(rt; sizes, [Ok(Some(5)), Ok(None)]);
    assert!(rt; reads(rt.alloc(), &mut source, 5, b"hello"));
    assert_eq!(rt; source.size("a"), Err(ReadError::Failed));
    assert!(rt; reads(rt.alloc(), &mut source, 3, b"hel"));
    Ok(())
}

#[test]
fn a_source_gives_short_pieces(rt: HostRuntime) -> Result<(), Fail> {
    let mut source = source(rt.alloc())?;
    source.short(2);
    let mut buffer = [0u8; 5];
    assert_eq!(rt; source.read("a", 1, &mut buffer), Ok(2));
    assert!(rt; reads(rt.alloc(), &mut source, 5, b"hello"));
    Ok(())
}

#[test]
fn a_sink_keeps_what_it_is_given(rt: HostRuntime) -> Result<(), Fail> {
    let mut sink = MemSink::new(rt.alloc());
    let begun = [sink.begin("d"), sink.begin("d")];
    assert_eq!(rt; begun, [Ok(true), Ok(false)]);
    // the third put fails, and adds nothing
    sink.fail_at(5)?;
    let file = SinkTarget::File(Name::from_str(rt.alloc(), "f")?);
    let put = [
        put_all(&mut sink, &file, b""),
        put_all(&mut sink, &file, b"one"),
        put_all(&mut sink, &file, b"lost"),
        put_all(&mut sink, &file, b" two"),
    ];
    assert_eq!(rt; put, [Ok(()), Ok(()), Err(WriteError::Failed), Ok(())]);
    assert_eq!(rt; sink.file("f"), Some(b"one two".as_slice()));
    assert!(rt; sink.has_directory("d") && sink.file_count() == 1);
    Ok(())
}

#[test]
fn a_sink_takes_short_pieces(rt: HostRuntime) {
    let mut sink = MemSink::new(rt.alloc());
    let errors = put_all(&mut sink, &SinkTarget::Err, b"err");
    sink.short(2);
    let piece = sink.put(&SinkTarget::Out, b"out");
    let rest = put_all(&mut sink, &SinkTarget::Out, b"t of it");
    assert_eq!(rt; (errors, piece, rest), (Ok(()), Ok(2), Ok(())));
    assert_eq!(rt; sink.err(), b"err".as_slice());
    assert_eq!(rt; sink.out(), b"out of it".as_slice());
}
