//! A read of a certificate that failed can be tried again.

use cert_read::{CertReader, Line, LineFault};
use plan_io::DeskMem;
use std::test::Fail;

/// What ends the reading, and the line that it names, if it names one; nothing where it goes on.
fn ended(answer: Result<Line, LineFault>) -> Option<(&'static str, u64)> {
    match answer {
        Ok(Line::Step(_)) => None,
        Ok(Line::End(_)) => None,
        Ok(Line::Over) => Some(("over", 0)),
        Err(LineFault::NotALine(line)) => Some(("no line", line)),
        Err(LineFault::TooLong(line)) => Some(("too long", line)),
        Err(LineFault::Short) => Some(("short", 0)),
        Err(LineFault::ReadFault) => Some(("read fault", 0)),
        Err(LineFault::Memory) => Some(("memory", 0)),
    }
}

#[test]
fn a_failed_read_leaves_the_reader(rt: HostRuntime) -> Result<(), Fail> {
    let mut desk = DeskMem::new(vec![in rt.alloc(); 1]?);
    desk.put("c", b"btrplan certificate 1\nplan 7\nleft")?;
    let mut reader = CertReader::new(rt.alloc(), "c")?;
    for want in [None, Some(("read fault", 0)), Some(("short", 0))] {
        assert_eq!(rt; ended(reader.next(&mut desk)), want);
    }
    assert_eq!(rt; (reader.lines(), desk.read_faults()), (2, 1));
    Ok(())
}
