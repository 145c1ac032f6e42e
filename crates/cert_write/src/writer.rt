//! A certificate that is being written.
ghost use Rattle.std.specs.Prelude.{◌≡◌, ◌⊎◌, ◌++◌, Some, None, IsTrue, IfOk, OnOk, OnErr};
ghost use Rattle.std.specs.Io.{StartsWith};
ghost use Rattle.plan_io.specs.Prelude.{bytes_of, CountsWrites, IsCut, OthersStay};
ghost use Rattle.cert_text.specs.Spelling.{HasStep, end_line, header_line, step_line};

use catalogue::Problem;
use cert_text::printing::{HEADER_LINE, push_end_line, push_step_line};
use plan_io::{Desk, OutFault, write_whole};
use std::alloc::Global;
use std::marker::Model;
use trees::{Goal, Step};

/// Writes one certificate: its header when it is made, and then a line at each call.
///
/// Contracts see it as the name of its file. A line is put together in a buffer that is kept from
/// call to call, and goes out in one append.
#[derive(Drop)]
pub struct CertWriter {
    name: String,
    line: String,
}

impl Model for CertWriter {
    ghost use Rattle.std.specs.Prelude.{List, ℕ, string_bytes};

    ghost Value = { List ℕ };

    ghost view = { λ a. string_bytes a.name };
}

impl CertWriter {
    /// Creates the file of this name, which then holds the header line alone.
    ///
    /// `Failed` only where the desk's count of failed writes rose, `Memory` for want of memory. After
    /// a refusal the file is as before, absent, empty or a prefix of the header line. Other files stay.
    #[tactic(auto, unfolding(cert_text::specs::Spelling::header_line))]
    pub fn new<D: Desk>(alloc: Global, desk: &mut D, name: &str) -> Result<CertWriter, OutFault>
        requires { IsTrue (D.writes name.now) }
        ensures writer { IfOk result (λ w. w ≡ name.now) }
        ensures written { IsTrue D.tells → OnOk result (D.files desk.new name.now ≡ Some header_line) }
        ensures cut { IsTrue D.tells
            → IsCut (D.files desk.old name.now) header_line (D.files desk.new name.now) }
        ensures others { IsTrue D.tells → OthersStay name.now (D.files desk.old) (D.files desk.new) }
        ensures current { OnOk result (D.current desk.new ≡ Some name.now) }
        ensures current_left { let created = (D.current desk.new ≡ None) ⊎ (D.current desk.new ≡ Some name.now) in
            OnErr result ((D.current desk.new ≡ D.current desk.old) ⊎ created) }
        ensures cause { CountsWrites (D.write_faults desk.old) (D.write_faults desk.new) result }
        ensures reads_kept { D.read_faults desk.new ≡ D.read_faults desk.old }
    {
        let name = String::from_str(alloc, name)?;
        let line = String::new(alloc);
        write_whole(desk, name.as_str(), HEADER_LINE.as_bytes())?;
        Ok(CertWriter { name, line })
    }

    /// Appends the line of a step to the file.
    ///
    /// `Failed` only where the desk's count of failed writes rose, `Memory` for want of memory. After
    /// a refusal the file has its old bytes and then a prefix of the line. Other files stay.
    pub fn step<D: Desk>(&mut self, desk: &mut D, p: &Problem, step: &Step) -> Result<(), OutFault>
        requires writes { IsTrue (D.writes self.old) }
        requires current { D.current desk.old ≡ Some self.old }
        requires step { HasStep p.now.given step.now }
        ensures grown { let before = bytes_of (D.files desk.old self.old) in
            IsTrue D.tells
            → OnOk result (D.files desk.new self.old ≡ Some (before ++ step_line p.now.given step.now)) }
        ensures cut { let before = bytes_of (D.files desk.old self.old) in
            IsTrue D.tells
            → StartsWith (before ++ step_line p.now.given step.now) (bytes_of (D.files desk.new self.old)) }
        ensures stays { IsTrue D.tells
            → StartsWith (bytes_of (D.files desk.new self.old)) (bytes_of (D.files desk.old self.old)) }
        ensures others { IsTrue D.tells → OthersStay self.old (D.files desk.old) (D.files desk.new) }
        ensures current { D.current desk.new ≡ D.current desk.old }
        ensures cause { CountsWrites (D.write_faults desk.old) (D.write_faults desk.new) result }
        ensures reads_kept { D.read_faults desk.new ≡ D.read_faults desk.old }
        ensures writer { self.new ≡ self.old }
    {
        self.line.clear();
        push_step_line(&mut self.line, p, step)?;
        desk.append(self.name.as_str(), self.line.as_bytes())
    }

    /// Appends the end line of a goal to the file, as `step` does the line of a step.
    pub fn end<D: Desk>(&mut self, desk: &mut D, goal: Goal) -> Result<(), OutFault>
        requires writes { IsTrue (D.writes self.old) }
        requires current { D.current desk.old ≡ Some self.old }
        ensures grown { let before = bytes_of (D.files desk.old self.old) in
            IsTrue D.tells → OnOk result (D.files desk.new self.old ≡ Some (before ++ end_line goal)) }
        ensures cut { let before = bytes_of (D.files desk.old self.old) in
            IsTrue D.tells → StartsWith (before ++ end_line goal) (bytes_of (D.files desk.new self.old)) }
        ensures stays { IsTrue D.tells
            → StartsWith (bytes_of (D.files desk.new self.old)) (bytes_of (D.files desk.old self.old)) }
        ensures others { IsTrue D.tells → OthersStay self.old (D.files desk.old) (D.files desk.new) }
        ensures current { D.current desk.new ≡ D.current desk.old }
        ensures cause { CountsWrites (D.write_faults desk.old) (D.write_faults desk.new) result }
        ensures reads_kept { D.read_faults desk.new ≡ D.read_faults desk.old }
        ensures writer { self.new ≡ self.old }
    {
        self.line.clear();
        push_end_line(&mut self.line, goal)?;
        desk.append(self.name.as_str(), self.line.as_bytes())
    }
}
