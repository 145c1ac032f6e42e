//! Files and streams: what comes after a call that failed, the objects that no command has, and the real ones.

use plan_io::{
    Desk, DeskMem, DeskSure, Failed, FileDesk, OutFault, Sink, SinkMem, SinkSure, Source,
    SourceMem, SourceSure, StdSink, StdSource, WholeFault, read_whole, write_text, write_whole,
};
use std::alloc::Global;
use std::fs;
use std::test::Fail;

#[test]
fn a_listed_call_of_a_desk_fails(rt: HostRuntime) -> Result<(), Fail> {
    let mut desk = DeskMem::new(vec![in rt.alloc(); 1]?);
    assert_eq!(rt; desk.create("a"), Ok(()));
    assert_eq!(rt; desk.append("a", b"lost"), Err(OutFault::Failed));
    assert_eq!(rt; desk.append("a", b"kept"), Ok(()));
    assert_eq!(rt; desk.get("a"), Some(b"kept".as_slice()));
    Ok(())
}

/// A file that is not there has no bytes, where no call can fail.
#[test]
fn a_sure_desk(rt: HostRuntime) -> Result<(), Fail> {
    let mut desk = DeskSure::new(rt.alloc());
    let mut buf = [0; 4];
    assert_eq!(rt; write_whole(&mut desk, "a", b"text"), Ok(()));
    assert_eq!(rt; desk.read_at("a", 0, &mut buf), Ok(4));
    assert_eq!(rt; desk.read_at("b", 0, &mut buf), Ok(0));
    Ok(())
}

/// What comes of reading 4,097 bytes, where one call of the desk fails.
fn read_4097(alloc: Global, limit: u32, fails: u64) -> Result<Result<usize, WholeFault>, Fail> {
    let mut desk = DeskMem::new(vec![in alloc; fails]?);
    desk.put("a", &[7; 4097])?;
    Ok(read_whole(alloc, &mut desk, "a", limit.into()).map(|bytes| bytes.len()))
}

/// The second read of a file that is too long is the last.
#[test]
fn no_read_past_the_limit(rt: HostRuntime) -> Result<(), Fail> {
    assert_eq!(rt; read_4097(rt.alloc(), 4097, 3)?, Ok(4097));
    assert_eq!(rt; read_4097(rt.alloc(), 4096, 2)?, Err(WholeFault::TooLong));
    assert_eq!(rt; read_4097(rt.alloc(), 4096, 1)?, Err(WholeFault::ReadFault));
    Ok(())
}

#[test]
fn real_files_are_written_and_read(rt: HostRuntime) -> Result<(), Fail> {
    let name = "plan_io-test.txt";
    let mut desk = FileDesk::new(&rt, rt.alloc());
    assert_eq!(rt; write_whole(&mut desk, name, b"abc"), Ok(()));
    assert_eq!(rt; desk.append(name, b"de"), Ok(()));
    let read = read_whole(rt.alloc(), &mut desk, name, 5);
    assert!(rt; read.is_ok_and(|bytes| bytes.as_slice() == b"abcde".as_slice()));
    fs::remove_file(&rt, name)?;
    assert_eq!(rt; desk.read_at(name, 0, &mut [0; 4]), Err(Failed));
    Ok(())
}

/// The second read fails, and the third goes on.
#[test]
fn a_source_in_memory(rt: HostRuntime) -> Result<(), Fail> {
    let alloc = rt.alloc();
    let mut buf = [0; 2];
    let mut source = SourceMem::new(Vec::from_slice(alloc, b"abc")?, vec![in alloc; 1]?);
    assert_eq!(rt; source.read(&mut buf), Ok(2));
    assert_eq!(rt; source.read(&mut buf), Err(Failed));
    assert_eq!(rt; source.read(&mut buf), Ok(1));
    Ok(())
}

/// The first write fails, and the second one is written.
#[test]
fn a_sink_in_memory(rt: HostRuntime) -> Result<(), Fail> {
    let mut sink = SinkMem::new(vec![in rt.alloc(); 0]?);
    assert_eq!(rt; write_text(&mut sink, b"lost"), Err(OutFault::Failed));
    assert_eq!(rt; write_text(&mut sink, b"kept"), Ok(()));
    assert_eq!(rt; sink.written(), b"kept".as_slice());
    Ok(())
}

#[test]
fn sure_streams(rt: HostRuntime) -> Result<(), Fail> {
    let mut buf = [0; 2];
    let mut source = SourceSure::new(Vec::from_slice(rt.alloc(), b"abc")?);
    assert_eq!(rt; source.read(&mut buf), Ok(2));
    assert_eq!(rt; buf, *b"ab");
    let mut sink = SinkSure::new(rt.alloc());
    assert_eq!(rt; sink.write(b"abc"), Ok(3));
    assert_eq!(rt; sink.written(), b"abc".as_slice());
    Ok(())
}

#[test]
fn real_streams(rt: HostRuntime) -> Result<(), Fail> {
    let mut buf = [0; 4];
    assert_eq!(rt; StdSource::new(b"abc".as_slice()).read(&mut buf), Ok(3));
    let mut room = [0; 2];
    let mut sink = StdSink::new(room.as_mut_slice());
    assert_eq!(rt; write_text(&mut sink, b"ab"), Ok(()));
    assert_eq!(rt; sink.write(b"c"), Err(OutFault::Failed));
    assert_eq!(rt; room, *b"ab");
    Ok(())
}
