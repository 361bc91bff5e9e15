use std::fs;
use std::test::Fail;
use wdl_port::{ReadFault, Shelf, Sink};
use workflow_cli::{FileShelf, StreamSink};

#[test]
fn a_file_is_read_to_the_limit(rt: HostRuntime) -> Result<(), Fail> {
    let alloc = rt.alloc();
    let bytes = vec![in alloc; b'a'; 1_048_580]?;
    fs::write(&rt, "long", bytes.as_slice())?;
    let mut shelf = FileShelf::new(&rt);
    assert_eq!(rt; shelf.read(alloc, "long")?.len(), 1_048_577);
    assert_eq!(rt; shelf.read(alloc, "missing").err(), Some(ReadFault::Failed));
    assert_eq!(rt; shelf.faults, 1);
    fs::remove_file(&rt, "long")?;
    Ok(())
}

#[test]
fn a_stream_is_written_or_counts_its_fault(rt: HostRuntime) -> Result<(), Fail> {
    let mut sink = StreamSink::new(fs::File::create(&rt, "written")?);
    assert_eq!(rt; sink.write(b"")?, 0);
    assert_eq!(rt; sink.write(b"text")?, 4);
    assert_eq!(rt; fs::read_to_string(&rt, "written")?.as_str(), "text");
    let mut closed = StreamSink::new(fs::File::open(&rt, "written")?);
    assert!(rt; closed.write(b"text").is_err());
    assert_eq!(rt; closed.faults, 1);
    fs::remove_file(&rt, "written")?;
    Ok(())
}
