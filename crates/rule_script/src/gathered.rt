//! Elements that are gathered term by term.
ghost use Rattle.std.specs.Prelude.{◌≡◌, ◌++◌, [], IfOk, OnOk, not, true};
ghost use Rattle.std.specs.List.{filter, list_all};
ghost use Rattle.rule_script.specs.Elements.{counts, entry_of, joined_by, standing};
ghost use Rattle.rule_script.specs.Marks.{in_list};
ghost use Rattle.rule_script.specs.Small.{is_small};

use crate::elements::Elements;
use crate::places::Places;
use crate::tokens::Operator;
use base::Memory;
use cluster::Element;
use cluster::limits::{MAX_MACHINES, MAX_NODES};
use std::alloc::Global;
use std::marker::Model;

/// At most so many pairs of elements are compared one by one.
const FEW: usize = 512;

/// What stands left of an operator is gone through for each element right of it, if it has at most
/// so many. A longer list mostly grows on, so its places are worth their making.
const SHORT: usize = 128;

/// A list with more entries than this is written anew, without those that do not count.
const CROWDED: usize = 4 * (MAX_MACHINES + MAX_NODES);

/// Whether an entry of that number counts, where those of its element do from one number on.
fn counts(first: usize, number: usize) -> bool
    ensures { result ≡ counts first number }
{
    0 < first && first <= number
}

/// Whether a list of that length is gone through for each of so many elements.
fn is_few(len: usize, count: usize) -> bool {
    len <= SHORT && len.saturating_mul(count) <= FEW
}

/// The entries of a list that count.
#[tactic(auto, using(crate::proofs::ElementLemmas::count_rules))]
fn counted(alloc: Global, list: &[Element], places: &Places) -> Result<Elements, Memory>
    requires { list_all is_small list.now ≡ true }
    ensures { IfOk result (λ e. e ≡ standing (entry_of places.now) 1 list.now) }
{
    let mut number = 0;
    let mut found = Elements::with_room(alloc, MAX_MACHINES + MAX_NODES)?;
    for e in list {
        number += 1;
        if counts(places.entry(*e), number) {
            found.push(*e)?;
        }
    }
    Ok(found)
}

/// Elements in an order, of which each is found in constant time. What was taken out still has its
/// entry in the list, which does not count any more.
#[derive(Drop)]
struct Long {
    list: Vec<Element>,
    places: Places,
}

impl Model for Long {
    ghost use Rattle.std.specs.Prelude.{◌≡◌, List, nat_lt, true};
    ghost use Rattle.std.specs.List.{list_all};
    ghost use Rattle.cluster.specs.declared.ids.Element.{Element};
    ghost use Rattle.rule_script.specs.Elements.{entry_of, standing};
    ghost use Rattle.rule_script.specs.Marks.{in_list};
    ghost use Rattle.rule_script.specs.Small.{is_small};

    ghost Value = { List Element };

    ghost view = { λ a. standing (entry_of a.places) 1 a.list.items };

    ghost invariant = { λ a. (list_all is_small a.list.items ≡ true) × ((x : Element) → nat_lt 0 (entry_of a.places x) ≡ in_list (standing (entry_of a.places) 1 a.list.items) x) };
}

impl Long {
    /// The elements of a list.
    fn of(elements: Elements) -> Result<Long, Memory>
        ensures { IfOk result (λ e. e ≡ elements) }
    {
        let list = elements.into_list();
        let places = Places::of(*list.allocator(), &list)?;
        Ok(Long { list, places })
    }

    /// Whether the element is there.
    fn has(&self, e: Element) -> bool
        ensures { result ≡ in_list self.now e }
    {
        0 < self.places.entry(e)
    }

    /// Whether most entries do not count.
    fn is_crowded(&self) -> bool {
        CROWDED < self.list.len()
    }

    /// What counts, as a list.
    fn settled(&self) -> Result<Elements, Memory>
        ensures { IfOk result (λ e. e ≡ self.now) }
    {
        counted(*self.list.allocator(), &self.list, &self.places)
    }

    /// Adds what is not there yet.
    fn extend(&mut self, others: Elements) -> Result<(), Memory>
        ensures { OnOk result (self.new ≡ self.old ++ filter (λ e. not (in_list self.old e)) others) }
    {
        let mut more = others.into_list();
        more.retain(|e| !self.has(*e));
        let entry = self.list.len() + 1;
        self.list.extend_from_slice(&more)?;
        self.places.set_all(&more, entry);
        Ok(())
    }

    /// Takes elements out.
    fn take_out(&mut self, others: &[Element])
        requires { list_all is_small others.now ≡ true }
        ensures { self.new ≡ filter (λ e. not (in_list others.now e)) self.old }
    {
        self.places.set_all(others, 0);
    }
}

/// How gathered elements are kept.
#[derive(Drop)]
enum Held {
    Short(Elements),
    Long(Box<Long>),
}

/// Elements that are gathered term by term, in an order. Contracts see them as their list.
#[derive(Drop)]
pub(crate) struct Gathered {
    held: Held,
}

impl Model for Gathered {
    ghost use Rattle.std.specs.Prelude.{List};
    ghost use Rattle.cluster.specs.declared.ids.Element.{Element};
    ghost use Rattle.rule_script.specs.Held.{held_list};

    ghost Value = { List Element };

    ghost view = { λ a. held_list a.held };
}

impl Gathered {
    /// The elements of a list.
    pub(crate) fn new(elements: Elements) -> Gathered
        ensures { result ≡ elements }
    {
        Gathered {
            held: Held::Short(elements),
        }
    }

    /// No element.
    pub(crate) fn none(alloc: Global) -> Gathered
        ensures { result ≡ [] }
    {
        Gathered::new(Elements::none(alloc))
    }

    /// The elements of a list, each of which is found in constant time.
    fn long(elements: Elements) -> Result<Gathered, Memory>
        ensures { IfOk result (λ e. e ≡ elements) }
    {
        let alloc = elements.allocator();
        Ok(Gathered {
            held: Held::Long(Box::new(alloc, Long::of(elements)?)?),
        })
    }

    /// As a list.
    pub(crate) fn settled(self) -> Result<Elements, Memory>
        ensures { IfOk result (λ e. e ≡ self) }
    {
        match self.held {
            Held::Short(list) => Ok(list),
            Held::Long(long) => long.settled(),
        }
    }

    /// The same elements, so that so many can be looked for in time linear in their number.
    fn ready(self, count: usize) -> Result<Gathered, Memory>
        ensures { IfOk result (λ e. e ≡ self) }
    {
        match self.held {
            Held::Short(list) => {
                if is_few(list.len(), count) {
                    Ok(Gathered::new(list))
                } else {
                    Gathered::long(list)
                }
            }
            Held::Long(long) => {
                if long.is_crowded() {
                    Gathered::long(long.settled()?)
                } else {
                    Ok(Gathered {
                        held: Held::Long(long),
                    })
                }
            }
        }
    }

    /// Whether the element is there.
    fn has(&self, e: Element) -> bool
        ensures { result ≡ in_list self.now e }
    {
        match &self.held {
            Held::Short(list) => list.has(e),
            Held::Long(long) => long.has(e),
        }
    }

    /// Two put together. Of a long list only as many elements are looked at as the other has, but for
    /// `&`, which leaves no more than those.
    pub(crate) fn joined(self, operator: Operator, others: Elements) -> Result<Gathered, Memory>
        ensures { IfOk result (λ e. e ≡ joined_by operator self others) }
    {
        match operator {
            Operator::Plus => self.with(others),
            Operator::Minus => self.without(others),
            Operator::Both => self.common(others),
        }
    }

    fn with(self, others: Elements) -> Result<Gathered, Memory>
        ensures { IfOk result (λ e. e ≡ self ++ filter (λ e. not (in_list self e)) others) }
    {
        match self.ready(others.len())?.held {
            Held::Short(list) => {
                let more = others.besides(&list);
                Ok(Gathered::new(list.then(more)?))
            }
            Held::Long(long) => {
                let mut long = long;
                long.extend(others)?;
                Ok(Gathered {
                    held: Held::Long(long),
                })
            }
        }
    }

    fn without(self, others: Elements) -> Result<Gathered, Memory>
        ensures { IfOk result (λ e. e ≡ filter (λ e. not (in_list others e)) self) }
    {
        match self.ready(others.len())?.held {
            Held::Short(list) => Ok(Gathered::new(list.besides(&others))),
            Held::Long(long) => {
                let mut long = long;
                long.take_out(others.items());
                Ok(Gathered {
                    held: Held::Long(long),
                })
            }
        }
    }

    fn common(self, others: Elements) -> Result<Gathered, Memory>
        ensures { IfOk result (λ e. e ≡ filter (λ e. in_list others e) self) }
    {
        let elements = self.settled()?;
        let others = Gathered::new(others).ready(elements.len())?;
        let mut list = elements.into_list();
        list.retain(|e| others.has(*e));
        Ok(Gathered::new(Elements::new(list)))
    }
}
