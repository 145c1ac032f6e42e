//! Cuts that are worth a try where an amount is nearly reached: what is asked of them is left to the caller.
ghost use Rattle.std.specs.Prelude.{◌≡◌, ◌<◌, length};
ghost use Rattle.rule_setload.specs.Prelude.{AreConcerned, AreStayersTo, has_node, IsSized, IsWeight, machine_count, sets};

use crate::bounds::Bound;
use crate::concerned::{Members, concerned};
use crate::holding::{goes_in, left_at};
use crate::most::{most_held, most_total};
use crate::stayers::{Stayers, stay, unit};
use crate::walk::next_change;
use power_bounds::period::{Period, act};
use rule_frame::{Element, Instant, Memory, Part, Problem, Reason, Region, Row, Suggestion, VmId};
use standings::numbers::Standing;
use std::alloc::Global;

/// What is spare of an amount during a period; nothing where what is surely held is more.
#[derive(Clone, Copy)]
struct Spare {
    period: Period,
    amount: u64,
}

// what is spare in each period that counts
fn spares(
    alloc: Global,
    p: &Problem,
    g: &Region,
    ks: &[Standing],
    bound: &Bound,
    members: &Members,
    always: bool,
) -> Result<Vec<Spare>, Memory>
    requires region { IsSized p.now.given g.now }
    requires count { length ks.now ≡ machine_count p.now.given }
    requires weight { IsWeight p.now.given bound.now.weight }
    requires members { AreConcerned p.now.given (sets g.now) bound.now.weight (has_node bound.now.nodes) members.now }
{
    let mut spares = Vec::new(alloc);
    let end = u64::from(p.horizon()) + 1;
    let mut from = if always { 0 } else { u64::from(p.horizon()) };
    'periods: while from < end {
        let next = next_change(p, g, ks, bound, members, from);
        let period = Period {
            from: from as u32,
            to: (next - 1) as u32,
        };
        let total = most_total(p, g, ks, bound, members, period);
        spares.push(Spare {
            period,
            amount: bound.amount.saturating_sub(total),
        })?;
        from = next;
    }
    Ok(spares)
}

/// A machine, as far as it counts: what it has at present on the nodes, what it brings there, and what is counted for
/// it in each period.
#[derive(Clone, Copy)]
struct Member<'a> {
    machine: VmId,
    stays: u64,
    unit: u64,
    constraint: u32,
    spares: &'a [Spare],
    own: &'a [u64],
}

impl Member<'_> {
    // whether so much more is too much in a period
    fn is_short(&self, i: usize, need: u64) -> bool {
        if i < self.spares.len() && i < self.own.len() {
            self.spares[i].amount.saturating_add(self.own[i]) < need
        } else {
            false
        }
    }

    // the first instant at which it is
    fn first_short(&self, need: u64) -> Option<Instant> {
        for i in 0..self.spares.len() {
            if self.is_short(i, need) {
                return Some(self.spares[i].period.from);
            }
        }
        None
    }

    // the last one
    fn last_short(&self, need: u64) -> Option<Instant> {
        let count = self.spares.len();
        for i in 0..count {
            if self.is_short(count - 1 - i, need) {
                return Some(self.spares[count - 1 - i].period.to);
            }
        }
        None
    }

    // the last one from an instant on and up to another
    fn last_short_in(&self, need: u64, from: Instant, to: Instant) -> Option<Instant> {
        let count = self.spares.len();
        for i in 0..count {
            let x = self.spares[count - 1 - i].period;
            if x.from <= to && from <= x.to && self.is_short(count - 1 - i, need) {
                return Some(x.to.min(to));
            }
        }
        None
    }

    // puts a cut into a list
    fn put(&self, part: Part, t: Instant, them: &mut Vec<Suggestion>) -> Result<(), Memory> {
        them.push(Suggestion {
            element: Element::Vm(self.machine),
            part,
            reason: Reason::SetLoad(self.constraint, t),
        })?;
        Ok(())
    }

    // Idle, and the starts that leave too late, where what it has is too much
    fn put_stays(
        &self,
        p: &Problem,
        idle: bool,
        rows: &[Row],
        them: &mut Vec<Suggestion>,
    ) -> Result<(), Memory>
        requires { self.now.machine.0 < machine_count p.now.given }
    {
        if self.stays == 0 {
            return Ok(());
        }
        let Some(t) = self.first_short(self.stays) else {
            return Ok(());
        };
        if idle {
            self.put(Part::Idle, t, them)?;
        }
        for row in rows {
            self.put_late(p, *row, t, them)?;
        }
        Ok(())
    }

    // the starts of a row with which it has not left by an instant
    fn put_late(
        &self,
        p: &Problem,
        row: Row,
        t: Instant,
        them: &mut Vec<Suggestion>,
    ) -> Result<(), Memory>
        requires { self.now.machine.0 < machine_count p.now.given }
    {
        let last = left_at(p, self.machine, act(row, row.hi));
        if last <= u64::from(t) {
            return Ok(());
        }
        let lasts = last.saturating_sub(u64::from(row.hi));
        let first = (u64::from(t) + 1)
            .saturating_sub(lasts)
            .max(u64::from(row.lo))
            .min(u64::from(row.hi));
        self.put(Part::From(row.place, first as u32), t, them)
    }

    // the starts of a row by which it is there while what it brings is too much
    fn put_comes(&self, row: Row, them: &mut Vec<Suggestion>) -> Result<(), Memory> {
        if let Some(t) = self.last_short(self.unit) {
            if row.lo <= t {
                self.put(Part::Upto(row.place, t), t, them)?;
            }
        }
        Ok(())
    }

    // those by which it is there twice while that is too much: from the first start on, as far as that goes
    fn put_twice(&self, p: &Problem, row: Row, them: &mut Vec<Suggestion>) -> Result<(), Memory>
        requires { self.now.machine.0 < machine_count p.now.given }
    {
        if self.stays == 0 {
            return Ok(());
        }
        let left = left_at(p, self.machine, act(row, row.lo));
        let lasts = left.saturating_sub(u64::from(row.lo)).min(1_000_000_000) as u32;
        let need = self.stays.saturating_add(self.unit);
        if lasts == 0 || self.first_short(need).is_none() {
            return Ok(());
        }
        let mut cuts = Vec::new(*them.allocator());
        let mut low = row.lo;
        for _ in row.lo..row.hi.saturating_add(1) {
            if low <= row.hi {
                if let Some(t) = self.last_short_in(need, low, low.saturating_add(lasts - 1)) {
                    cuts.push(t)?;
                    low = t.saturating_add(1);
                } else {
                    low = Instant::MAX;
                }
            }
        }
        // the list is taken from its end
        for _ in 0..cuts.len() {
            if let Some(t) = cuts.pop() {
                self.put(Part::Upto(row.place, t), t, them)?;
            }
        }
        Ok(())
    }

    // all that is worth a try
    fn put_all(
        &self,
        p: &Problem,
        g: &Region,
        bound: &Bound,
        them: &mut Vec<Suggestion>,
    ) -> Result<(), Memory>
        requires region { IsSized p.now.given g.now }
        requires machine { self.now.machine.0 < machine_count p.now.given }
    {
        let domain = g.domain(Element::Vm(self.machine));
        for row in domain.rows() {
            if goes_in(act(*row, row.lo), &bound.nodes) {
                self.put_twice(p, *row, them)?;
                self.put_comes(*row, them)?;
            }
        }
        self.put_stays(p, domain.idle(), domain.rows(), them)
    }
}

// what is spare in the period in which the least is
fn least_spare(spares: &[Spare]) -> u64 {
    let mut least = u64::MAX;
    for spare in spares {
        least = least.min(spare.amount);
    }
    least
}

// of one machine, where not all that it has and brings is always spare
fn propose_machine(
    p: &Problem,
    g: &Region,
    k: Standing,
    machine: VmId,
    bound: &Bound,
    constraint: u32,
    spares: &[Spare],
    them: &mut Vec<Suggestion>,
) -> Result<(), Memory>
    requires region { IsSized p.now.given g.now }
    requires machine { machine.0 < machine_count p.now.given }
    requires weight { IsWeight p.now.given bound.now.weight }
{
    let stays = stay(p, machine, bound);
    let unit = unit(p, machine, bound.weight);
    if stays + unit <= least_spare(spares) || g.domain(Element::Vm(machine)).is_one() {
        return Ok(());
    }
    let mut own = Vec::with_capacity(*them.allocator(), spares.len())?;
    for spare in spares {
        if spare.period.to <= p.horizon() {
            own.push(most_held(p, g, k, machine, bound, spare.period))?;
        }
    }
    let member = Member {
        machine,
        stays,
        unit,
        constraint,
        spares,
        own: &own,
    };
    member.put_all(p, g, bound, them)
}

/// Puts into a list what may be cut for a constraint on what machines hold, as wide as is seen.
pub(crate) fn propose_amount(
    p: &Problem,
    g: &Region,
    ks: &[Standing],
    bound: &Bound,
    stayers: Stayers,
    c: u32,
    always: bool,
    them: &mut Vec<Suggestion>,
) -> Result<(), Memory>
    requires region { IsSized p.now.given g.now }
    requires count { length ks.now ≡ machine_count p.now.given }
    requires weight { IsWeight p.now.given bound.now.weight }
    requires stayers { AreStayersTo p.now.given bound.now.weight (has_node bound.now.nodes) (machine_count p.now.given) stayers }
{
    let members = concerned(p, g, bound, stayers);
    let spares = spares(*them.allocator(), p, g, ks, bound, &members, always)?;
    for i in 0..p.cluster().machines().len() {
        let v = VmId(i as u32);
        if members.machines.has(v) {
            propose_machine(p, g, ks[i], v, bound, c, &spares, them)?;
        }
    }
    Ok(())
}
