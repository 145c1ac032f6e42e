//! Laws of transcripts: each is the contract of a function that does nothing, and a lemma of the same name in
//! proofs/Public proves it.
ghost use Rattle.transcript.specs.Laws.{AlwaysEnds, EveryPointIsSafe, FaultsLeaveABeginning, TranscriptIsOne};

/// Each text of event lines has a transcript.
#[tactic(auto, using(crate::proofs::Public::always_ends))]
pub fn always_ends()
    ensures { AlwaysEnds }
{}

/// It has one alone.
#[tactic(auto, using(crate::proofs::Public::transcript_is_one))]
pub fn transcript_is_one()
    ensures { TranscriptIsOne }
{}

/// What is written before a fault is the beginning of a transcript.
#[tactic(auto, using(crate::proofs::Public::faults_leave_a_beginning))]
pub fn faults_leave_a_beginning()
    ensures { FaultsLeaveABeginning }
{}

/// At each point of a transcript of a valid plan the rules are kept.
#[tactic(auto, using(crate::proofs::Public::every_point_is_safe))]
pub fn every_point_is_safe()
    ensures { EveryPointIsSafe }
{}
