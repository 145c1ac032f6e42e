//! The command `check` on a desk that gives one byte at each read.

use crate::tests::solvers::NoMemory;
use crate::tests::words;
use commands::run::run;
use commands::status::Status;
use fixtures::instances::SWAP;
use plan_io::{Desk, DeskSure, Failed, OutFault, SinkMem, SourceMem};
use std::alloc::Global;
use std::process::Abort;
use std::test::Fail;

/// The second machine moves, and then the first one.
const ONE_BY_ONE: &[u8] =
    br#"{"actions":[{"element":"v0","kind":"migrate","place":"n1","start":3},{"element":"v1","kind":"migrate","place":"n2","start":0}]}"#;

/// The lines of a certificate for `SWAP` and `ONE_BY_ONE`.
static LINES: [&str; 8] = [
    "btrplan certificate 1\n",
    "cut v0 idle place 0 20 v0 n0\n",
    "cut v0 upto n2 17 place 0 20 v0 n2\n",
    "cut v1 idle place 1 20 v1 n1\n",
    "cut v1 upto n0 17 place 1 20 v1 n0\n",
    "cut v0 upto n1 2 load 2 cpu n1\n",
    "fail bound\n",
    "end optimal 9\n",
];

/// The certificate of `LINES` with this text in place of the line of this number.
fn forged(alloc: Global, number: usize, text: &str) -> Result<Vec<u8>, Fail> {
    let mut certificate = Vec::new(alloc);
    for (i, line) in LINES.iter().enumerate() {
        let line = if i + 1 == number { text } else { *line };
        certificate.extend_from_slice(line.as_bytes())?;
    }
    Ok(certificate)
}

/// A desk that hands on a buffer of at most one byte.
#[derive(Drop)]
struct OneByteDesk {
    desk: DeskSure,
}

impl Desk for OneByteDesk {
    ghost use Rattle.std.specs.Prelude.{true, false};
    ghost use Rattle.plan_io.specs.DeskSure.{sure_files, sure_current};
    ghost use Rattle.plan_io.specs.Fits.{sure_fits};

    // what its files hold no clause tells: that is seen here
    ghost tells = { false };

    ghost reads = { λ _. true };

    ghost writes = { λ _. true };

    ghost files = { λ d. sure_files d.desk };

    ghost current = { λ d. sure_current d.desk };

    ghost read_faults = { λ _. 0 };

    ghost write_faults = { λ _. 0 };

    ghost fits = { λ d name _. sure_fits d.desk name };

    fn read_at(&mut self, name: &str, place: u64, buf: &mut [u8]) -> Result<usize, Failed> {
        let most = buf.len().min(1);
        self.desk.read_at(name, place, &mut buf[..most])
    }

    fn create(&mut self, name: &str) -> Result<(), OutFault> {
        self.desk.create(name)
    }

    fn append(&mut self, name: &str, piece: &[u8]) -> Result<(), OutFault> {
        self.desk.append(name, piece)
    }

    fn sync(&mut self) -> Result<(), OutFault> {
        self.desk.sync()
    }
}

/// Checks the certificate of `LINES` with this text in place of the line of this number, and sees the status and what is
/// printed.
fn reads(
    rt: &impl Abort,
    alloc: Global,
    (number, text): (usize, &str),
    (status, printed): (Status, &[u8]),
) -> Result<(), Fail> {
    let mut desk = OneByteDesk {
        desk: DeskSure::new(alloc),
    };
    desk.desk.put("i", SWAP)?;
    desk.desk.put("p", ONE_BY_ONE)?;
    desk.desk.put("c", &forged(alloc, number, text)?)?;
    let words = words(alloc, "check i p c")?;
    let mut input = SourceMem::new(Vec::new(alloc), Vec::new(alloc));
    let mut out = SinkMem::new(Vec::new(alloc));
    let answer = run(alloc, &words, &mut desk, &mut input, &mut out, &NoMemory);
    assert_eq!(rt; (answer, out.written()), (status, printed));
    Ok(())
}

#[test]
fn a_byte_at_each_read(rt: HostRuntime) -> Result<(), Fail> {
    let alloc = rt.alloc();
    let other = "cut v0 upto n1 2 load 3 cpu n1\n";
    let longer = "end optimal 9\n\n";
    reads(&rt, alloc, (0, ""), (Status::Good, b"yes optimal 9\n"))?;
    reads(&rt, alloc, (6, other), (Status::Negative, b"no 6 reason\n"))?;
    reads(
        &rt,
        alloc,
        (8, ""),
        (Status::Input, b"input certificate short\n"),
    )?;
    reads(
        &rt,
        alloc,
        (8, longer),
        (Status::Input, b"input certificate line 9\n"),
    )
}
