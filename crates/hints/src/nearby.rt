//! For each node, and for the nodes of each bounded amount, machines that may surely have something there.
use base::Memory;
use catalogue::Problem;
use cluster::limits::MAX_NODES;
use cluster::{Element, NodeId, NodeSet, Place, VmId};
use domains::Domain;
use slices::Form;
use slices::form::form_of;
use std::alloc::Global;

/// For each node, in ascending order, the machines that it hosts, and those of which once all choices went there.
///
/// Nothing is promised of the lists, and nothing is taken out of them: they only say which machines to look at first.
#[derive(Drop)]
pub struct Nearby {
    lists: Vec<Vec<u32>>,
    // the constraints that bound an amount on each node, and the machines near the nodes of each of these
    bounds: Vec<Vec<u32>>,
    holders: Vec<Vec<u32>>,
    // how many more of these are taken note of
    left: usize,
}

// so many machines are taken note of near the nodes of all constraints together
const MOST_HOLDERS: usize = 1_000_000;

// the node to which all choices of a domain go
fn only_goal(domain: &Domain) -> Option<NodeId> {
    if domain.idle() {
        return None;
    }
    let rows = domain.rows();
    match rows {
        [] => None,
        [first, ..] => {
            // rows are in the order of their places
            if rows[rows.len() - 1].place == first.place {
                node_of(first.place)
            } else {
                None
            }
        }
    }
}

// the node of a place
fn node_of(place: Place) -> Option<NodeId> {
    match place {
        Place::Nowhere => None,
        Place::At(n) => Some(n),
    }
}

// puts a number into an ascending list, where it is not there; for want of memory it is left out
fn insert(list: &mut Vec<u32>, number: u32) {
    if let Err(at) = list.binary_search(&number) {
        drop(list.insert(at, number));
    }
}

// so many empty lists
fn empty_lists(alloc: Global, count: usize) -> Result<Vec<Vec<u32>>, Memory> {
    let mut lists = Vec::with_capacity(alloc, count)?;
    for _ in 0..count {
        lists.push(Vec::new(alloc))?;
    }
    Ok(lists)
}

// takes note of a constraint at each node of a set
fn note_at(bounds: &mut Vec<Vec<u32>>, c: u32, nodes: &NodeSet) -> Result<(), Memory> {
    for n in 0..bounds.len().min(MAX_NODES) {
        if nodes.has(NodeId(n as u32)) {
            if let Some(list) = bounds.get_mut(n) {
                list.push(c)?;
            }
        }
    }
    Ok(())
}

// for each node the constraints that bound an amount there
fn bounds_of(alloc: Global, p: &Problem) -> Result<Vec<Vec<u32>>, Memory> {
    let mut bounds: Vec<Vec<u32>> = empty_lists(alloc, p.cluster().nodes().len())?;
    for c in 0..p.constraints().len() {
        if let Form::Bounded(_, nodes, _) = form_of(&p.constraints()[c]) {
            note_at(&mut bounds, c as u32, nodes)?;
        }
    }
    Ok(bounds)
}

impl Nearby {
    /// The machines that each node hosts. The only error is want of memory.
    pub fn of(alloc: Global, p: &Problem) -> Result<Nearby, Memory> {
        let lists = empty_lists(alloc, p.cluster().nodes().len())?;
        let mut nearby = Nearby {
            lists,
            bounds: bounds_of(alloc, p)?,
            holders: empty_lists(alloc, p.constraints().len())?,
            left: MOST_HOLDERS,
        };
        for i in 0..p.cluster().machines().len() {
            if let Some(h) = p.cluster().machines()[i].state.host() {
                nearby.put(h, VmId(i as u32));
            }
        }
        Ok(nearby)
    }

    // puts a machine near a node, if there is such a node
    fn put(&mut self, n: NodeId, v: VmId) {
        let i = n.0 as usize;
        if i < self.lists.len() {
            insert(&mut self.lists[i], v.0);
        }
        if i < self.bounds.len() {
            for c in &self.bounds[i] {
                let c = *c as usize;
                if c < self.holders.len() && self.left > 0 {
                    insert(&mut self.holders[c], v.0);
                    self.left -= 1;
                }
            }
        }
    }

    /// Takes note of an element that has these choices now.
    pub fn tell(&mut self, element: Element, domain: &Domain) {
        if let Element::Vm(v) = element {
            if let Some(n) = only_goal(domain) {
                self.put(n, v);
            }
        }
    }

    /// The machines near the first node of a set; none where it has none.
    pub fn of_first(&self, set: &NodeSet) -> &[u32] {
        match set.first_from(0) {
            None => &[],
            Some(n) => self.at(n.0 as usize),
        }
    }

    /// The machines near the nodes of the constraint of a number, if it bounds an amount.
    pub fn of_constraint(&self, c: u32) -> &[u32] {
        let i = c as usize;
        if i < self.holders.len() {
            &self.holders[i]
        } else {
            &[]
        }
    }

    // the list of a number
    fn at(&self, i: usize) -> &[u32] {
        if i < self.lists.len() {
            &self.lists[i]
        } else {
            &[]
        }
    }
}
