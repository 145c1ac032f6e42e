//! The brancher `Guided`.
ghost use Rattle.std.specs.Prelude.{◌≡◌, IfSome};
ghost use Rattle.domains.specs.Sets.{IsFixed, sets};
ghost use Rattle.reasons.specs.Closed.{HaveChoices};
ghost use Rattle.relax.specs.Areas.{AreLegal, IsSized};
ghost use Rattle.trees.specs.Proving.{IsSplit};

use crate::mark::mark_of;
use crate::numbers::node;
use crate::order::Order;
use crate::rows::{machine_domain, node_domain};
use crate::thought::Thought;
use crate::wish::{Wish, is_split};
use base::Memory;
use branching::brancher::Brancher;
use branching::stay_first::StayFirst;
use catalogue::Problem;
use cluster::{Choice, Element, VmId};
use domains::{Domain, Part, Region};
use reasons::Reason;
use slices::Plan;
use slices::plan::cost;
use std::alloc::Global;

/// Thinks before it splits. At the root of a search it seeks a whole plan, the target:
///
/// - no whole plan is found, or there is no memory: it goes on as `StayFirst`;
/// - the target costs the sum of the least ends of the root, so that no plan is cheaper: it splits as `StayFirst`, but
///   until a plan is met machines before nodes, and each time so that the inside holds what the target has;
/// - the target is dearer: it branches only on what breaks if all stays that may stay, and until a plan is met each
///   time so that the inside holds what the target has. Where actions wait for others it splits as `StayFirst`,
///   toward the target until a plan is met.
///
/// One element alone that is not fixed takes its choice with the least end. A brancher that is handed another problem,
/// or a root again, thinks anew.
#[derive(Drop)]
pub struct Guided {
    alloc: Global,
    stay: StayFirst,
    /// By what the problem is told for which it thought.
    mark: Option<u64>,
    /// What was split at the root, and how many choices that had.
    first: Option<(Element, u64)>,
    /// The last split, and whether the search has gone back since.
    last: Option<Wish>,
    went_back: bool,
    thought: Option<Thought>,
    best: Option<u64>,
    fails: u64,
    is_put_off: Vec<bool>,
    // the number of an element that was the second that is not fixed
    second: usize,
}

impl Guided {
    /// One that has met no problem and no plan. It takes no memory yet.
    pub fn new(alloc: Global) -> Guided {
        Guided {
            alloc,
            stay: StayFirst::new(),
            mark: None,
            first: None,
            last: None,
            went_back: false,
            thought: None,
            best: None,
            fails: 0,
            is_put_off: Vec::new(alloc),
            second: 0,
        }
    }

    // thinks anew where the problem is another one, or a search begins; whether it did
    fn meet(&mut self, p: &Problem, g: &Region) -> bool {
        if self.is_known(p, g) && !self.is_root(g) {
            return false;
        }
        self.mark = Some(mark_of(p));
        self.best = None;
        self.fails = 0;
        self.stay = StayFirst::new();
        self.thought = match Thought::of(self.alloc, p, g) {
            Ok(thought) => thought,
            Err(Memory) => None,
        };
        true
    }

    // whether a problem is the one that was met last: where the search has only gone deeper, that is told by the last
    // split; where nothing is followed, it does not matter
    fn is_known(&self, p: &Problem, g: &Region) -> bool {
        let (Some(mark), Some(last)) = (self.mark, self.last) else {
            return false;
        };
        match &self.thought {
            None => true,
            Some(thought) => {
                thought.fits(g) && (!self.went_back && is_inside(g, last) || mark == mark_of(p))
            }
        }
    }

    // whether what was split first has all choices that it had then
    fn is_root(&self, g: &Region) -> bool {
        match self.first {
            None => true,
            Some((element, count)) => match domain_of(g, element) {
                None => true,
                Some(domain) => count_of(domain) == count,
            },
        }
    }

    // whether one element alone is not fixed
    fn is_alone(&mut self, g: &Region) -> bool {
        let Some(first) = first_number(g) else {
            return true;
        };
        if self.second > first && is_open(g, self.second) {
            return false;
        }
        let count = g.machine_count().saturating_add(g.node_count());
        for x in first.saturating_add(1)..count {
            if is_open(g, x) {
                self.second = x;
                return false;
            }
        }
        true
    }

    // the split that is wished for, where something is to be proved
    fn wish(&mut self, g: &Region) -> Result<Option<Wish>, Memory> {
        let Some(thought) = &mut self.thought else {
            return Ok(None);
        };
        if thought.is_plain {
            return Ok(None);
        }
        thought.outlook.look(&thought.tables, &thought.root, g)?;
        let thought = &*thought;
        let holds = self.best.is_none() && holds_target(thought, g);
        self.is_put_off.clear();
        if holds {
            put_off(thought, &mut self.is_put_off)?;
        }
        let bound = if holds {
            Some(thought.target.cost.saturating_add(1))
        } else {
            self.best
        };
        let order = Order {
            alloc: self.alloc,
            thought,
            outlook: &thought.outlook,
            region: g,
            bound,
            fails: self.fails,
            is_put_off: &self.is_put_off,
        };
        order.wish()
    }

    // a split so that the inside holds what the target has, until a plan is met
    fn toward(&self, g: &Region, element: Element) -> Option<Wish> {
        if self.best.is_some() {
            return None;
        }
        let (Some(thought), Some(domain)) = (&self.thought, domain_of(g, element)) else {
            return None;
        };
        match thought.target.part(element, domain, thought.is_least) {
            Some(part) => Some(Wish { element, part }),
            None => None,
        }
    }

    // what is split instead of a node on the way to a target that no plan undercuts: a machine, as long as one is not
    // fixed. A node that keeps a machine is not split at all then, and what its going off asks of all machines is not
    // worked out on the other side
    fn sooner(&self, g: &Region, wish: Wish) -> Wish {
        let is_followed = match &self.thought {
            Some(thought) => thought.is_least && self.best.is_none(),
            None => false,
        };
        if !is_followed {
            return wish;
        }
        match (wish.element, g.first_unfixed()) {
            (Element::Node(_), Some(Element::Vm(v))) => {
                self.toward(g, Element::Vm(v)).unwrap_or(wish)
            }
            _ => wish,
        }
    }

    // the split toward the target, where it is one, and else the one that is wished for, where it is one
    fn granted(&self, p: &Problem, g: &Region, wish: Wish) -> Option<(Element, Part)>
        requires { IsSized p.now.given g.now }
        ensures { IfSome result (λ s. IsSplit p.now.given (sets g.now) s.0 s.1) }
    {
        if let Some(turned) = self.toward(g, wish.element) {
            if is_split(p, g, turned) {
                return Some((turned.element, turned.part));
            }
        }
        if is_split(p, g, wish) {
            return Some((wish.element, wish.part));
        }
        None
    }

    // the split of a region in which several elements are not fixed
    fn split(&mut self, p: &Problem, g: &Region) -> (Element, Part)
        requires sized { IsSized p.now.given g.now }
        requires legal { AreLegal p.now.given (sets g.now) }
        requires inhabited { HaveChoices p.now.given (sets g.now) }
        requires free { ¬ IsFixed g.now }
        ensures { IsSplit p.now.given (sets g.now) result.0 result.1 }
    {
        if let Ok(Some(wish)) = self.wish(g) {
            if let Some(split) = self.granted(p, g, wish) {
                return split;
            }
        }
        let (element, part) = self.stay.choose(p, g);
        let wish = self.sooner(g, Wish { element, part });
        match self.granted(p, g, wish) {
            Some(split) => split,
            None => (element, part),
        }
    }

    // lets go of a dearer target that is followed no more, where all else is left to `StayFirst`
    fn let_go(&mut self) {
        let is_done = match &self.thought {
            Some(thought) => thought.is_plain && !thought.is_least,
            None => false,
        };
        if is_done {
            self.thought = None;
        }
    }

    // keeps what was split at a root
    fn note(&mut self, g: &Region, element: Element) {
        self.first = match domain_of(g, element) {
            Some(domain) => Some((element, count_of(domain))),
            None => None,
        };
    }
}

// the domain of an element, if a region has it
fn domain_of(g: &Region, e: Element) -> Option<&Domain> {
    match e {
        Element::Vm(v) => machine_domain(g, v.0 as usize),
        Element::Node(n) => node_domain(g, n.0 as usize),
    }
}

// how many choices a domain has
fn count_of(domain: &Domain) -> u64 {
    let mut count = u64::from(domain.idle());
    for row in domain.rows() {
        let starts = u64::from(row.hi).saturating_sub(u64::from(row.lo));
        count = count.saturating_add(starts).saturating_add(1);
    }
    count
}

// the number of the first element that is not fixed: machines come first
fn first_number(g: &Region) -> Option<usize> {
    match g.first_unfixed() {
        None => None,
        Some(Element::Vm(v)) => Some(v.0 as usize),
        Some(Element::Node(n)) => Some(g.machine_count().saturating_add(n.0 as usize)),
    }
}

// whether the element of a number is one of a region and not fixed
fn is_open(g: &Region, x: usize) -> bool {
    let machines = g.machine_count();
    let domain = if x < machines {
        machine_domain(g, x)
    } else {
        node_domain(g, x.saturating_sub(machines))
    };
    match domain {
        Some(domain) => !domain.is_one(),
        None => false,
    }
}

// whether a region still holds the whole target
fn holds_target(thought: &Thought, g: &Region) -> bool {
    for v in 0..thought.tables.machines.len() {
        if let Some(domain) = machine_domain(g, v) {
            let id = VmId(u32::try_from(v).unwrap_or(u32::MAX));
            if !thought.target.is_held(Element::Vm(id), domain) {
                return false;
            }
        }
    }
    for n in 0..thought.tables.nodes.len() {
        if let Some(domain) = node_domain(g, n) {
            if !thought.target.is_held(Element::Node(node(n)), domain) {
                return false;
            }
        }
    }
    true
}

// which elements may stay, and act in the target
fn put_off(thought: &Thought, is_put_off: &mut Vec<bool>) -> Result<(), Memory> {
    for v in 0..thought.target.machines.len() {
        let acts = does_act(&thought.target.machines, v);
        is_put_off.push(acts && thought.outlook.machine(v).may_stay)?;
    }
    for n in 0..thought.target.nodes.len() {
        let acts = does_act(&thought.target.nodes, n);
        is_put_off.push(acts && thought.outlook.node(n).may_stay)?;
    }
    Ok(())
}

fn does_act(choices: &[Choice], i: usize) -> bool {
    match choices.get(i) {
        Some(Choice::Act { .. }) => true,
        Some(Choice::Idle) | None => false,
    }
}

// whether a failure ends the work on a region
fn is_end(element: Option<Element>, reason: &Reason) -> bool {
    element.is_none() || matches!(reason, Reason::Empty(_))
}

// whether only what is inside of a split is left
fn is_inside(g: &Region, wish: Wish) -> bool {
    let Some(domain) = domain_of(g, wish.element) else {
        return false;
    };
    let rows = domain.rows();
    match wish.part {
        Part::Idle => rows.is_empty(),
        Part::Upto(place, start) => {
            !domain.idle() && matches!(rows, [row] if row.place == place && row.hi <= start)
        }
        Part::From(place, start) => {
            !domain.idle() && matches!(rows, [row] if row.place == place && row.lo >= start)
        }
    }
}

impl Brancher for Guided {
    fn choose(&mut self, p: &Problem, g: &Region) -> (Element, Part) {
        let is_root = self.meet(p, g);
        let (element, part) = if self.is_alone(g) {
            self.stay.choose(p, g)
        } else {
            self.split(p, g)
        };
        if is_root {
            self.note(g, element);
        }
        self.last = Some(Wish { element, part });
        self.went_back = false;
        (element, part)
    }

    fn met_plan(&mut self, p: &Problem, plan: &Plan) {
        self.stay.met_plan(p, plan);
        self.best = Some(cost(p, plan));
        self.went_back = true;
        self.let_go();
    }

    fn failed(&mut self, p: &Problem, element: Option<Element>, reason: &Reason) {
        self.stay.failed(p, element, reason);
        if is_end(element, reason) {
            self.went_back = true;
            if !matches!(reason, Reason::Bound) {
                self.fails = self.fails.saturating_add(1);
            }
        }
    }
}
