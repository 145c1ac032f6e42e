//! The running sum.
ghost use Rattle.std.specs.Prelude.{◌≡◌, ◌<◌, ◌∷◌, [], OnErr, OnOk, IfOk, length};
ghost use Rattle.relax.specs.Prelude.{AreFewer, AreLegal, choices, domain_at, domain_before, IsElement, IsSized, least_cost as least_cost_of, sets, with_domain};

use crate::ends::after_change;
use base::Memory;
use catalogue::Problem;
use cluster::Element;
use domains::{Before, Domain, Lens, Region, View};
use relax::totals::least_cost;
use std::alloc::Global;
use std::marker::Model;

/// The sum of the least ends of a region, and what it was at each mark that stands.
///
/// It is told of each change, and looks at the changed element alone. An element without a choice counts 0. The sum
/// fits its type: there are at most 4,608 elements, and each ends by an instant of 32 bits.
#[derive(Drop)]
pub struct LowerBound {
    top: u64,
    older: Vec<u64>,
}

impl Model for LowerBound {
    ghost use Rattle.std.specs.Prelude.{reverse};
    ghost use Rattle.bound.specs.Sums.{Sums};

    ghost Value = { Sums };

    ghost view = { λ b. record { top = b.top; older = reverse b.older.items } };
}

impl LowerBound {
    /// The sum of a region, without a mark, and with room for as many marks as there are elements. The only error is
    /// want of memory.
    pub fn new(alloc: Global, p: &Problem, g: &Region) -> Result<LowerBound, Memory>
        requires region { IsSized p.now.given g.now }
        requires legal { AreLegal p.now.given (sets g.now) }
        ensures { IfOk result (λ b. b ≡ record { top = least_cost_of p.now.given (sets g.now); older = [] }) }
    {
        let older = Vec::with_capacity(alloc, p.cluster().element_count())?;
        Ok(LowerBound {
            top: sum_of(p, g),
            older,
        })
    }

    /// The sum now.
    pub fn sum(&self) -> u64
        ensures { result ≡ self.now.top }
    {
        self.top
    }

    /// Follows a narrowing of one element. `before` and `kept` tell its domain before the change, as a trail does.
    pub fn told(&mut self, p: &Problem, g: &Region, element: Element, before: Before, kept: &Domain)
        requires region { IsSized p.now.given g.now }
        requires legal { AreLegal p.now.given (sets g.now) }
        requires element { IsElement p.now.given element }
        requires narrowed { AreFewer (sets g.now element) (choices (domain_before before kept.now (domain_at g.now element))) }
        requires agreed { self.old.top
            ≡ least_cost_of p.now.given (sets (with_domain g.now element (domain_before before kept.now (domain_at g.now element)))) }
        ensures top { self.new.top ≡ least_cost_of p.now.given (sets g.now) }
        ensures older { self.new.older ≡ self.old.older }
    {
        self.top = after_change(p, element, g.domain(element), before, kept, self.top);
    }

    /// Makes a mark, to which `back` returns. After want of memory all is as it was.
    pub fn mark(&mut self) -> Result<(), Memory>
        ensures ok { OnOk result (self.new ≡ record { top = self.old.top; older = self.old.top ∷ self.old.older }) }
        ensures err { OnErr result (self.new ≡ self.old) }
    {
        self.older.push(self.top)?;
        Ok(())
    }

    /// Goes back to the sum at the last mark, and drops that mark.
    pub fn back(&mut self)
        requires { 0 < length self.old.older }
        ensures { self.old.older ≡ self.new.top ∷ self.new.older }
    {
        if let Some(top) = self.older.pop() {
            self.top = top;
        }
    }
}

/// The sum of the least ends of a region, added up anew.
pub fn sum_of(p: &Problem, g: &Region) -> u64
    requires region { IsSized p.now.given g.now }
    requires legal { AreLegal p.now.given (sets g.now) }
    ensures { result ≡ least_cost_of p.now.given (sets g.now) }
{
    let view = View {
        region: g,
        lens: Lens::Whole,
    };
    least_cost(p, &view) as u64
}
