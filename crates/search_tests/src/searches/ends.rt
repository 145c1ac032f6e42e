//! A propagator that looks for loads.
ghost use Rattle.std.specs.Prelude.{◌≡◌, true, IfOk, IfSome, IsTrue};
ghost use Rattle.catalogue.specs.Instance.{IsElement};
ghost use Rattle.domains.specs.Sets.{sets};
ghost use Rattle.prop_core.specs.Propagators.{CutHolds, IsRegionOf, IsRight, MayAnswer, counted};
ghost use Rattle.prop_core.specs.Tests.{keeps_nothing};

use base::Memory;
use catalogue::Problem;
use closing::closed::closed;
use cluster::{Element, NodeId, NodeSet, VmId};
use domains::{Before, Change, Domain, Part, Region, Side};
use prop_core::propagator::{Answer, Propagator};
use reasons::{Reason, ReasonKind};
use relax::refutes::refutes_inside;

/// Covers all kinds, and cuts an end of the choices of an element by the load of a node or of all; where a region is not
/// closed for another reason it is out of memory. Or it covers no kind, and is quiet.
#[derive(Drop)]
pub struct Ends {
    covers_all: bool,
    /// How often there is memory to post it.
    posts: u64,
    /// How often there is memory to ask it.
    questions: u64,
    level: u64,
    given: u64,
}

impl Ends {
    pub fn new() -> Ends {
        Ends::with_questions(u64::MAX)
    }

    /// One that is out of memory after so many questions.
    pub fn with_questions(questions: u64) -> Ends {
        Ends {
            covers_all: true,
            posts: u64::MAX,
            questions,
            level: 0,
            given: 0,
        }
    }

    /// One that has answered so many cuts before.
    pub fn with_given(given: u64) -> Ends {
        Ends {
            covers_all: true,
            posts: u64::MAX,
            questions: u64::MAX,
            level: 0,
            given,
        }
    }

    /// One that covers no kind, and is out of memory after so many posts.
    pub fn silent(posts: u64) -> Ends {
        Ends {
            covers_all: false,
            posts,
            questions: u64::MAX,
            level: 0,
            given: 0,
        }
    }
}

impl Propagator for Ends {
    ghost meaning = { λ r. keeps_nothing r.level r.given r.covers_all };

    fn covers(&self, _kind: ReasonKind) -> bool {
        self.covers_all
    }

    fn level(&self) -> u64 {
        self.level
    }

    fn given(&self) -> u64 {
        self.given
    }

    fn post(&mut self, _p: &Problem, _g: &Region) -> Result<(), Memory> {
        if self.posts == 0 {
            return Err(Memory);
        }
        self.posts -= 1;
        self.level = 0;
        Ok(())
    }

    fn told(
        &mut self,
        _p: &Problem,
        _g: &Region,
        _change: Change,
        _before: Before,
        _kept: &Domain,
    ) -> Result<(), Memory> {
        Ok(())
    }

    fn mark(&mut self) -> Result<(), Memory> {
        self.level += 1;
        Ok(())
    }

    fn back(&mut self) {
        self.level -= 1;
    }

    fn propagate(&mut self, p: &Problem, g: &Region) -> Result<Answer, Memory> {
        if self.questions == 0 {
            return Err(Memory);
        }
        self.questions -= 1;
        let answer = answer(p, g, self.covers_all)?;
        self.given = count(self.given, answer);
        Ok(answer)
    }
}

/// The count after an answer.
fn count(given: u64, answer: Answer) -> u64
    ensures { result ≡ counted given answer }
{
    match answer {
        Answer::Quiet => given,
        Answer::Cut(..) | Answer::Fail(_) => given.saturating_add(1),
    }
}

/// The answer of a propagator that covers all kinds, or none.
fn answer(p: &Problem, g: &Region, covers_all: bool) -> Result<Answer, Memory>
    requires { IsRegionOf p.now.given g.now }
    ensures { IfOk result (IsRight p.now.given (sets g.now) (keeps_nothing 0 0 covers_all)) }
{
    if covers_all {
        covering_answer(p, g)
    } else {
        Ok(Answer::Quiet)
    }
}

/// The answer of one that covers all kinds.
#[tactic(auto, using(crate::proofs::TestLemmas::quiet_of))]
fn covering_answer(p: &Problem, g: &Region) -> Result<Answer, Memory>
    requires { IsRegionOf p.now.given g.now }
    ensures { IfOk result (IsRight p.now.given (sets g.now) (keeps_nothing 0 0 true)) }
{
    if closed(p, g) {
        return Ok(Answer::Quiet);
    }
    for v in 0..p.cluster().machines().len() {
        if let Some(answer) = end_cut(p, g, Element::Vm(VmId(v as u32))) {
            return Ok(answer);
        }
    }
    for n in 0..p.cluster().nodes().len() {
        if let Some(answer) = end_cut(p, g, Element::Node(NodeId(n as u32))) {
            return Ok(answer);
        }
    }
    Err(Memory)
}

/// A cut at an end of the choices of an element.
fn end_cut(p: &Problem, g: &Region, e: Element) -> Option<Answer>
    requires region { IsRegionOf p.now.given g.now }
    requires element { IsElement p.now.given e }
    ensures { IfSome result (IsRight p.now.given (sets g.now) (keeps_nothing 0 0 true)) }
{
    if g.domain(e).idle() {
        if let Some(answer) = part_cut(p, g, e, Part::Idle) {
            return Some(answer);
        }
    }
    for row in g.domain(e).rows() {
        for part in [Part::Upto(row.place, row.lo), Part::From(row.place, row.hi)] {
            if let Some(answer) = part_cut(p, g, e, part) {
                return Some(answer);
            }
        }
    }
    None
}

/// A cut of a part of the choices of an element.
fn part_cut(p: &Problem, g: &Region, e: Element, part: Part) -> Option<Answer>
    requires region { IsRegionOf p.now.given g.now }
    requires element { IsElement p.now.given e }
    ensures { IfSome result (IsRight p.now.given (sets g.now) (keeps_nothing 0 0 true)) }
{
    for t in 0..=p.horizon() {
        for k in 0..=p.cluster().nodes().len() {
            let load = Reason::Load(t, 0, nodes_at(p, k));
            if is_cut(p, g, e, part, &load) {
                return Some(Answer::Cut(e, part, load));
            }
        }
    }
    None
}

/// The set of the node of this number, or at their count of all.
fn nodes_at(p: &Problem, k: usize) -> NodeSet {
    let count = p.cluster().nodes().len();
    let mut set = NodeSet::new();
    for n in 0..count {
        if n == k || count == k {
            set.insert(NodeId(n as u32));
        }
    }
    set
}

/// Whether a reason refutes what is inside a part that holds a choice.
#[tactic(auto, using(crate::proofs::TestLemmas::cut_of))]
fn is_cut(p: &Problem, g: &Region, e: Element, part: Part, reason: &Reason) -> bool
    requires region { IsRegionOf p.now.given g.now }
    requires element { IsElement p.now.given e }
    requires may { MayAnswer reason.now }
    ensures { IsTrue result → CutHolds p.now.given (sets g.now) e part reason.now }
{
    let inside = Change {
        element: e,
        part,
        side: Side::Inside,
    };
    !g.leaves_none(inside) && refutes_inside(p, None, g, e, part, reason)
}
