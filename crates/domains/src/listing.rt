//! A list of domains that knows which of them have exactly one choice.
ghost use Rattle.std.specs.Prelude.{◌≡◌, ◌+◌, ◌-◌, ◌<◌, ◌≤◌, ◌^◌, length, slice_index, slice_index_or, slice_set, IfOk, IfSome, IfNone, filter, if◌then◌else◌};
ghost use Rattle.domains.specs.Choices.{DomainView, choices, is_one, staying, Climbs};
ghost use Rattle.domains.specs.Kept.{AreListed, block_of, IsFirstFrom, AreFixed};
ghost use Rattle.domains.specs.Parts.{in_part, out_of_part};
ghost use Rattle.domains.specs.Undo.{restored, CanRestore};

use crate::domain::Domain;
use crate::parts::Part;
use crate::undo::Lost;
use base::Memory;
use std::alloc::Global;
use std::marker::Model;

// in blocks of so many domains it is counted which have not exactly one choice
const BLOCK: usize = 64;

/// Domains in their order.
#[derive(Drop)]
pub struct Listing {
    domains: Vec<Domain>,
    // of each block how many domains have not exactly one choice; what comes after the others is in the last
    unfixed: [usize; 64],
}

impl Model for Listing {
    ghost use Rattle.std.specs.Prelude.{List};
    ghost use Rattle.domains.specs.Choices.{DomainView};
    ghost use Rattle.domains.specs.Kept.{AreListed};

    ghost Value = { List DomainView };

    ghost view = { λ l. l.domains.items };

    ghost invariant = { λ l. AreListed l.unfixed l.domains.items };
}

impl Listing {
    /// At most as many as numbers of 32 bits name.
    pub fn new(domains: Vec<Domain>) -> Listing
        requires { length domains.items ≤ 2 ^ 32 }
        ensures { result ≡ domains.items }
    {
        let unfixed = counted(domains.as_slice());
        Listing { domains, unfixed }
    }

    pub fn len(&self) -> usize
        ensures { result ≡ length self.now }
    {
        self.domains.len()
    }

    pub fn get(&self, i: usize) -> &Domain
        requires { i < length self.now }
        ensures domain { result.now ≡ slice_index_or self.now i staying }
        ensures climbs { Climbs 0 result.now.rows }
    {
        &self.domains[i]
    }

    /// Changes one domain, and hands back the old one.
    pub fn set(&mut self, i: usize, domain: Domain) -> Domain
        requires { i < length self.old }
        ensures old { result ≡ slice_index_or self.old i staying }
        ensures new { self.new ≡ slice_set self.old i domain }
    {
        let is_one = domain.is_one();
        let old = std::mem::replace(&mut self.domains[i], domain);
        recount(&mut self.unfixed, i, old.is_one(), is_one);
        old
    }

    /// Takes the choices away that are in a part, and says how to put them back.
    pub fn cut(&mut self, i: usize, part: Part) -> Lost
        requires { i < length self.old }
        ensures others { self.new ≡ slice_set self.old i (slice_index_or self.new i staying) }
        ensures set { choices (slice_index_or self.new i staying) ≡ filter (out_of_part part) (choices (slice_index_or self.old i staying)) }
        ensures undone { restored result (slice_index_or self.new i staying) ≡ slice_index_or self.old i staying }
        ensures can { CanRestore result (slice_index_or self.new i staying) }
    {
        let domain = &mut self.domains[i];
        let was_one = domain.is_one();
        let lost = domain.cut(part);
        let is_one = domain.is_one();
        recount(&mut self.unfixed, i, was_one, is_one);
        lost
    }

    /// Puts back what a cut has taken away.
    pub fn restore(&mut self, i: usize, lost: Lost)
        requires within { i < length self.old }
        requires can { CanRestore lost (slice_index_or self.old i staying) }
        ensures { self.new ≡ slice_set self.old i (restored lost (slice_index_or self.old i staying)) }
    {
        let domain = &mut self.domains[i];
        let was_one = domain.is_one();
        domain.restore(lost);
        let is_one = domain.is_one();
        recount(&mut self.unfixed, i, was_one, is_one);
    }

    /// The first domain that has not exactly one choice.
    pub fn first_unfixed(&self) -> Option<u32>
        ensures some { IfSome result (IsFirstFrom self.now 0) }
        ensures none { IfNone result (AreFixed self.now 0 (length self.now)) }
    {
        for block in 0..BLOCK {
            if self.unfixed[block] > 0 {
                return match first_from(self.domains.as_slice(), BLOCK * block) {
                    Some(i) => Some(i as u32),
                    None => None,
                };
            }
        }
        None
    }

    /// An equal list.
    pub fn copy(&self) -> Result<Listing, Memory>
        ensures { IfOk result (λ l. l ≡ self.now) }
    {
        let mut copies = Vec::with_capacity(*self.domains.allocator(), self.domains.len())?;
        for domain in &self.domains {
            copies.push(domain.copy()?)?;
        }
        Ok(Listing {
            domains: copies,
            unfixed: self.unfixed,
        })
    }
}

// the block that a domain is in
fn block(i: usize) -> usize
    ensures value { result ≡ block_of i }
    ensures within { result < 64 }
{
    (i / BLOCK).min(BLOCK - 1)
}

// how many domains of each block have not exactly one choice
fn counted(domains: &[Domain]) -> [usize; 64]
    requires { length domains.now ≤ 2 ^ 32 }
    ensures { AreListed result domains.now }
{
    let mut unfixed = [0; 64];
    for i in 0..domains.len() {
        unfixed[block(i)] += weight(is_one_at(domains, i));
    }
    unfixed
}

// counts a domain that has changed
fn recount(unfixed: &mut [usize; 64], i: usize, was_one: bool, is_one: bool)
    requires room { slice_index unfixed.old (block_of i) + 1 < 2 ^ 64 }
    requires counted { (if was_one then 0 else 1) ≤ slice_index unfixed.old (block_of i) }
    ensures { unfixed.new ≡ slice_set unfixed.old (block_of i) ((slice_index unfixed.old (block_of i) + (if is_one then 0 else 1)) - (if was_one then 0 else 1)) }
{
    let block = block(i);
    unfixed[block] = unfixed[block] + weight(is_one) - weight(was_one);
}

fn weight(is_one: bool) -> usize
    ensures value { result ≡ (if is_one then 0 else 1) }
    ensures small { result ≤ 1 }
{
    if is_one { 0 } else { 1 }
}

fn is_one_at(domains: &[Domain], i: usize) -> bool
    requires { i < length domains.now }
    ensures one { result ≡ is_one (slice_index_or domains.now i staying) }
    ensures climbs { Climbs 0 (slice_index_or domains.now i staying).rows }
{
    domains[i].is_one()
}

// the first domain from a place of the list on that has not exactly one choice
fn first_from(domains: &[Domain], from: usize) -> Option<usize>
    ensures some { IfSome result (IsFirstFrom domains.now from) }
    ensures none { IfNone result (AreFixed domains.now from (length domains.now)) }
{
    for i in from..domains.len() {
        if !is_one_at(domains, i) {
            return Some(i);
        }
    }
    None
}
