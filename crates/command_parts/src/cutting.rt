//! The command `cut`.

ghost use Rattle.std.specs.Prelude.{◌≡◌, ◌≢◌, ◌<◌, ℕ, length, List, Err, Ok, IsTrue, IfErr, IfOk, string_bytes};
ghost use Rattle.command_parts.specs.Prelude.{AnswersFrom, cut_line, CutsPart, Ends, Instance, instance_in, instance_text, IsCutOut, IsOfReading, IsOfWriting, IsSplitBy, IsTextCut, LeavesBy, LeavesCutOut, LeavesPart, NodeSet, outside, PartCauses, part_number, part_of, Reads, Split, WriteCauses, WritesPart};

use base::Memory;
use catalogue::Problem;
use command_frame::fault::{Ending, Fault, Outcome};
use command_frame::inputs::instance::problem_at;
use command_frame::inputs::refusal;
use command_groups::split_input::{SplitGroups, split_at};
use command_make::outputs::write_problem;
use plan_io::Desk;
use std::alloc::Global;

/// The line that says which part was written, of how many.
#[tactic(auto, unfolding(crate::specs::Cutting::cut_line))]
fn cut_line(alloc: Global, i: usize, count: usize) -> Result<String, Memory>
    ensures { IfOk result (λ line. string_bytes line ≡ cut_line i count) }
{
    Ok(format!(in alloc; "cut {i} of {count}\n")?)
}

/// Writes a part, and says which one it is, of how many.
#[tactic(auto, using(crate::proofs::CutAnswers::part_written, command_frame::proofs::Public::refused_write), unfolding(command_frame::specs::Endings::Ends))]
fn end_cut<D: Desk>(
    alloc: Global,
    desk: &mut D,
    part: &Problem,
    i: usize,
    count: usize,
    part_file: &str,
) -> Result<Ending, Fault>
    requires { IsTrue (D.writes part_file.now) }
    ensures ends { IsTrue D.tells → (p : Instance) (groups : List NodeSet) → Split p groups
        → i < length groups → count ≡ length groups → part.now.given ≡ part_of p groups i
        → (printed : List ℕ) → Ends (WritesPart part_file.now p groups i (outside (D.files desk.old) printed))
        (outside (D.files desk.new) printed) result }
    ensures left { let cut = IsTextCut part_file.now (instance_text part.now.given) in
        IsTrue D.tells → cut (D.files desk.old) (D.files desk.new) }
    ensures causes { WriteCauses (D.write_faults desk.old) (D.write_faults desk.new) result }
    ensures reads_kept { D.read_faults desk.new ≡ D.read_faults desk.old }
    ensures kind { IfErr result IsOfWriting }
{
    write_problem(alloc, desk, part, part_file)?;
    let line = cut_line(alloc, i, count)?;
    Ok(Ending {
        line: Some(line),
        outcome: Outcome::Good,
    })
}

/// The number of a part, where there are so many, or the line that refuses it.
#[tactic(auto, unfolding(crate::specs::Cutting::part_number))]
fn part_number(alloc: Global, count: usize, number: u64) -> Result<usize, Fault>
    ensures reading { Reads (λ i. i) result (part_number count number) }
    ensures within { IfOk result (λ i. i < count) }
    ensures kind { IfErr result IsOfReading }
{
    if number < count as u64 {
        Ok(number as usize)
    } else {
        Err(refusal(alloc, "part", "out of range"))
    }
}

/// Writes the part of that number of a problem that groups split.
#[tactic(auto, using(crate::proofs::CutAnswers::refused_number, partition::proofs::Public::part_count), unfolding(command_frame::specs::Endings::Ends))]
fn cut_part<D: Desk>(
    alloc: Global,
    desk: &mut D,
    p: &Problem,
    g: &SplitGroups,
    number: u64,
    part_file: &str,
) -> Result<Ending, Fault>
    requires split { IsSplitBy p.now.given g.now.groups.items g.now.split }
    requires writes { IsTrue (D.writes part_file.now) }
    ensures ends { let cuts = CutsPart number part_file.now p.now.given g.now.groups.items in
        IsTrue D.tells → (printed : List ℕ) → Ends (cuts (outside (D.files desk.old) printed))
        (outside (D.files desk.new) printed) result }
    ensures left { let leaves = LeavesPart number part_file.now p.now.given g.now.groups.items in
        IsTrue D.tells → leaves (D.files desk.old) (D.files desk.new) }
    ensures causes { WriteCauses (D.write_faults desk.old) (D.write_faults desk.new) result }
    ensures reads_kept { D.read_faults desk.new ≡ D.read_faults desk.old }
    ensures no_read { result ≢ Err Fault.ReadFault }
    ensures words { result ≢ Err Fault.Words }
{
    let count = g.groups.len();
    let i = part_number(alloc, count, number)?;
    end_cut(alloc, desk, &g.split.parts()[i], i, count, part_file)
}

/// Writes the part of that number of a problem, which the groups in a file split.
#[tactic(auto, using(crate::proofs::CutAnswers::refused_groups), unfolding(command_frame::specs::Endings::Ends))]
fn cut_problem<D: Desk>(
    alloc: Global,
    desk: &mut D,
    p: &Problem,
    groups_file: &str,
    number: u64,
    part_file: &str,
) -> Result<Ending, Fault>
    requires reads { IsTrue (D.reads groups_file.now) }
    requires writes { IsTrue (D.writes part_file.now) }
    ensures ends { let cut_out = IsCutOut groups_file.now number part_file.now p.now.given in
        IsTrue D.tells → (printed : List ℕ) → Ends (cut_out (outside (D.files desk.old) printed))
        (outside (D.files desk.new) printed) result }
    ensures left { let leaves = LeavesCutOut groups_file.now number part_file.now p.now.given in
        IsTrue D.tells → leaves (D.files desk.old) (D.files desk.new) }
    ensures failed_read { IsTrue D.tells → result ≡ Err Fault.ReadFault
        → D.files desk.new ≡ D.files desk.old }
    ensures causes { PartCauses (D.read_faults desk.old) (D.read_faults desk.new)
        (D.write_faults desk.old) (D.write_faults desk.new) result }
    ensures words { result ≢ Err Fault.Words }
{
    let g = split_at(alloc, desk, p, groups_file)?;
    cut_part(alloc, desk, p, &g, number, part_file)
}

/// Writes the part of that number of an instance, which the groups in a file split, as an instance of its own. Parts are
/// counted from 0, in the order of the groups.
#[tactic(auto, using(command_frame::proofs::Public::refused_instance), unfolding(command_frame::specs::Endings::Ends))]
pub fn cut<D: Desk>(
    alloc: Global,
    desk: &mut D,
    instance: &str,
    groups_file: &str,
    number: u64,
    part_file: &str,
) -> Result<Ending, Fault>
    requires instance { IsTrue (D.reads instance.now) }
    requires groups { IsTrue (D.reads groups_file.now) }
    requires writes { IsTrue (D.writes part_file.now) }
    ensures ends { let answers = AnswersFrom (IsCutOut groups_file.now number part_file.now) instance.now in
        IsTrue D.tells → (printed : List ℕ) → Ends (answers (outside (D.files desk.old) printed))
        (outside (D.files desk.new) printed) result }
    ensures left { let reading = instance_in (D.files desk.old) instance.now in
        let leaves = LeavesBy (LeavesCutOut groups_file.now number part_file.now) reading in
        IsTrue D.tells → leaves (D.files desk.old) (D.files desk.new) }
    ensures failed_read { IsTrue D.tells → result ≡ Err Fault.ReadFault
        → D.files desk.new ≡ D.files desk.old }
    ensures causes { PartCauses (D.read_faults desk.old) (D.read_faults desk.new)
        (D.write_faults desk.old) (D.write_faults desk.new) result }
    ensures words { result ≢ Err Fault.Words }
{
    let problem = problem_at(alloc, desk, instance)?;
    cut_problem(alloc, desk, &problem, groups_file, number, part_file)
}
