//! Those that may stay are fixed first, and whole places before starts.
ghost use Rattle.std.specs.Prelude.{◌≡◌};
ghost use Rattle.branching.specs.Prelude.{AreLegal, HaveChoices, IsFixed, IsSized, IsSplit, IsUnfixed, sets};

use crate::brancher::Brancher;
use crate::forced::forced;
use crate::known::{Orders, Size, size_of};
use crate::open::first_open;
use crate::passed::Passed;
use crate::picks::{fewest_places, least_start, next_stayer, open_at, soonest_of};
use crate::split::{by_least_end, by_place};
use catalogue::Problem;
use cluster::{Element, MachineSet};
use domains::{Part, Region};
use reasons::Reason;
use slices::Plan;
use slices::plan::cost;

/// Finds good plans early, and closes what is left soon. The first of these that an element answers is chosen:
///
/// 1. it alone is not fixed: its choice with the least end, which makes the best plan of the region;
/// 2. a plan is known, and all but one way of its choices would make the sum of the least ends reach that cost;
/// 3. a node that may stay as it is, the longest change first;
/// 4. a machine that wants more than a third of the greatest node, in some resource, with several places: the least
///    end first, and then the fewest places;
/// 5. a machine that may stay as it is, the longest move first;
/// 6. a machine with several places: the fewest places first, and then the greatest demand;
/// 7. the least start.
///
/// It is split by Idle where that is held; else by the whole place with the least end; where it has one place, by its
/// first start. A brancher that is handed a problem of another size starts anew.
#[derive(Drop)]
pub struct StayFirst {
    best: Option<u64>,
    size: Option<Size>,
    orders: Orders,
    // how far no element of `orders.stayers` may stay
    passed: Passed,
    // the number of an element that was the second that is not fixed
    second: usize,
}

impl StayFirst {
    /// One that has met no problem and no plan. It takes no memory.
    pub fn new() -> StayFirst
        ensures best { result.best ≡ None }
        ensures size { result.size ≡ None }
    {
        StayFirst {
            best: None,
            size: None,
            orders: Orders::new(),
            passed: Passed::new(),
            second: 0,
        }
    }

    // starts anew where the problem is another one
    fn meet(&mut self, p: &Problem) {
        let size = size_of(p);
        if self.size != Some(size) {
            self.best = None;
            self.size = Some(size);
            self.orders.work_out(p);
            self.passed.clear();
        }
    }

    // whether no element after the first that is not fixed is not fixed either
    fn is_alone(&mut self, p: &Problem, g: &Region, first: Element) -> bool
        requires sized { IsSized p.now.given g.now }
        requires open { IsUnfixed g.now first }
    {
        let from = p.cluster().number(first) + 1;
        if self.second >= from && is_open(p, g, self.second) {
            return false;
        }
        for x in from..p.cluster().element_count() {
            if is_open(p, g, x) {
                self.second = x;
                return false;
            }
        }
        true
    }

    // the element that is split, where it is not the only one
    fn next(&self, p: &Problem, g: &Region, first: Element, place: usize) -> Element
        requires sized { IsSized p.now.given g.now }
        requires open { IsUnfixed g.now first }
        ensures { IsUnfixed g.now result }
    {
        if let Some(best) = self.best {
            if let Some(x) = forced(p, g, best) {
                return x;
            }
        }
        let stayer = open_at(p, g, &self.orders.stayers, place);
        if let Some(Element::Node(n)) = stayer {
            return Element::Node(n);
        }
        if let Some(x) = soonest_of(p, g, &self.orders.machines, self.orders.big) {
            return x;
        }
        if let Some(x) = stayer {
            return x;
        }
        if let Some(x) = fewest_places(p, g, &self.orders.machines, self.orders.big) {
            return x;
        }
        least_start(p, g, first)
    }
}

impl Brancher for StayFirst {
    fn choose(&mut self, p: &Problem, g: &Region) -> (Element, Part) {
        self.meet(p);
        let place = next_stayer(p, g, &self.orders.stayers, self.passed.place());
        self.passed.go_deeper(place);
        let first = first_open(g);
        if self.is_alone(p, g, first) {
            return (first, by_least_end(p, first, g.domain(first)));
        }
        let x = self.next(p, g, first, place);
        (x, by_place(p, x, g.domain(x)))
    }

    fn met_plan(&mut self, p: &Problem, plan: &Plan) {
        self.meet(p);
        self.best = Some(cost(p, plan));
        self.passed.go_back();
    }

    fn failed(&mut self, _p: &Problem, element: Option<Element>, reason: &Reason) {
        if is_end(element, reason) {
            self.passed.go_back();
        }
    }
}

// whether a failure ends the work on its region
fn is_end(element: Option<Element>, reason: &Reason) -> bool {
    match element {
        None => true,
        Some(_) => match reason {
            Reason::Empty(_) => true,
            _ => false,
        },
    }
}

// whether the element of a number is one of the problem and not fixed
fn is_open(p: &Problem, g: &Region, x: usize) -> bool
    requires { IsSized p.now.given g.now }
{
    x < p.cluster().element_count() && !g.domain(p.cluster().element(x)).is_one()
}
