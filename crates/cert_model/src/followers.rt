//! Propagators that follow a trail: told of its changes, marked and taken back with it, and asked whether its region is closed.
//! The numbers of its machines follow it too, and what those of one amount hold together.
ghost use Rattle.std.specs.Prelude.{◌≡◌, ◌∷◌, ◌<◌, ◌++◌, [], Bool, true, IfOk, IfSome, IsTrue, OnErr, OnOk, length};
ghost use Rattle.cert_model.specs.Prelude.{AreCounted, AreFewer, AreFollowing, AreKnown, AreStanding, choices, domain_at, domain_before, FollowWhile, HasElement, HaveChoices, Instance, IsClosed, IsElement, IsNarrowed, IsRegionOf, IsSized, IsTally, keeping, Marked, on_side, Pairs, Sets, sets, ToldSame, TopsAgree};
ghost use Rattle.domains.specs.SetsBefore.{sets_before};
ghost use Rattle.cluster.specs.declared.choices.Choice.{Choice as AnyChoice};
ghost use Rattle.cluster.specs.declared.ids.Element.{Element as AnyElement};

use base::Memory;
use catalogue::Problem;
use cluster::Element;
use domains::{Before, Change, Domain, Region};
use prop_core::all::{back_all, mark_all, post_all, tell_all};
use prop_core::asking::ask_all;
use prop_core::cover::covered;
use prop_core::propagator::{Answer, Propagator};
use quick_checks::tally::Tally;
use standings::numbers::Standing;
use standings::table::Table;
use std::alloc::Global;
use trail::Trail;

/// Whether the propagators that are handed in with each call follow the trail that is handed in with them, and where each
/// machine surely stands in its region and at its marks.
///
/// While they do, one that has looked at a region looks next time at what has changed since. Want of memory
/// ends it for all of them, and for good; then they are told nothing more, and say nothing. So it is with the numbers.
#[derive(Drop)]
pub struct Followers {
    pub follow: bool,
    /// In which the trail keeps an old domain while a change is told.
    pub kept: Domain,
    /// Whether the numbers of the machines are those of the trail.
    pub counted: bool,
    pub table: Table,
    /// What the machines of one bounded amount are known to hold together, or of none.
    pub tally: Option<Tally>,
}

impl Followers {
    /// Posts propagators for a region without a mark, where they are wanted and cover each standard kind
    /// of reasons. Those that do not follow are told nothing.
    pub fn new(
        alloc: Global,
        p: &Problem,
        region: &Region,
        wanted: bool,
        rules: &mut Vec<Box<dyn Propagator>>,
    ) -> Followers
        requires { IsRegionOf p.now.given region.now }
        ensures { FollowWhile (λ b. meaning b) p.now.given (record { region = region.now; marks = [] }) result.follow rules.new.items result.counted result.table result.tally }
    {
        let mut table = Table::new(alloc);
        let counted = table.post(p, region).is_ok();
        Followers {
            follow: wanted && are_posted(p, region, rules),
            kept: Domain::new(alloc, false),
            counted,
            table,
            tally: None,
        }
    }

    /// Where each machine surely stands in the region of the trail; of none where that is not kept.
    pub fn standings(&self) -> &[Standing]
        ensures { (p : Instance) (t : Marked) → (self.now.counted ≡ true → AreCounted p t self.now.table) → AreKnown p (sets t.region) result.now }
    {
        if self.counted {
            self.table.standings()
        } else {
            &[]
        }
    }

    /// Narrows one element as `Trail::apply` does, and tells those that follow.
    pub fn narrow(
        &mut self,
        p: &Problem,
        trail: &mut Trail,
        rules: &mut Vec<Box<dyn Propagator>>,
        change: Change,
    ) -> Result<(), Memory>
        requires element { HasElement trail.old.region change.element }
        requires follow { FollowWhile (λ b. meaning b) p.now.given trail.old self.old.follow rules.old.items self.old.counted self.old.table self.old.tally }
        ensures machines { length trail.new.region.machines ≡ length trail.old.region.machines }
        ensures nodes { length trail.new.region.nodes ≡ length trail.old.region.nodes }
        ensures sets { OnOk result ((e : AnyElement) → sets trail.new.region e
            ≡ keeping change.element (on_side change.side change.part) (sets trail.old.region) e) }
        ensures marks { trail.new.marks ≡ trail.old.marks }
        ensures err { OnErr result (trail.new ≡ trail.old) }
        ensures follow { FollowWhile (λ b. meaning b) p.now.given trail.new self.new.follow rules.new.items self.new.counted self.new.table self.new.tally }
    {
        let Some(before) = applied(trail, &mut self.kept, change)? else {
            // telling alone may be what there is no memory for
            self.follow = false;
            self.counted = false;
            self.tally = None;
            return Ok(());
        };
        let g = trail.region();
        let stood = self.standing(change.element);
        self.follow = rules_told(p, g, rules, change, before, &self.kept, self.follow);
        self.counted = table_told(
            p,
            g,
            &mut self.table,
            change,
            before,
            &self.kept,
            self.counted,
        );
        let stands = stood == self.standing(change.element);
        self.tally = tally_told(p, g, change.element, stands, self.tally);
        Ok(())
    }

    // the numbers of an element, if it is a machine that has some
    fn standing(&self, x: Element) -> Option<Standing> {
        match x {
            Element::Vm(v) => self.table.standings().get(v.0 as usize).copied(),
            Element::Node(_) => None,
        }
    }

    /// Makes a mark, to which `back` returns, also in those that follow.
    pub fn mark(
        &mut self,
        p: &Problem,
        trail: &mut Trail,
        rules: &mut Vec<Box<dyn Propagator>>,
    ) -> Result<(), Memory>
        requires { FollowWhile (λ b. meaning b) p.now.given trail.old self.old.follow rules.old.items self.old.counted self.old.table self.old.tally }
        ensures ok { OnOk result (trail.new ≡ record { region = trail.old.region; marks = trail.old.region ∷ trail.old.marks }) }
        ensures err { OnErr result (trail.new ≡ trail.old) }
        ensures follow { FollowWhile (λ b. meaning b) p.now.given trail.new self.new.follow rules.new.items self.new.counted self.new.table self.new.tally }
    {
        self.follow = mark_told(p, trail, rules, self.follow)?;
        self.counted = table_marked(&mut self.table, self.counted);
        Ok(())
    }

    /// Goes back to the last mark, and drops it, also in those that follow.
    pub fn back(&mut self, p: &Problem, trail: &mut Trail, rules: &mut Vec<Box<dyn Propagator>>)
        requires marked { 0 < length trail.old.marks }
        requires follow { FollowWhile (λ b. meaning b) p.now.given trail.old self.old.follow rules.old.items self.old.counted self.old.table self.old.tally }
        ensures marks { trail.old.marks ≡ trail.new.region ∷ trail.new.marks }
        ensures follow { FollowWhile (λ b. meaning b) p.now.given trail.new self.new.follow rules.new.items self.new.counted self.new.table self.new.tally }
    {
        back_told(p, trail, rules, self.follow);
        table_back(&mut self.table, self.counted);
        self.tally = None;
    }

    /// Whether those that follow are all quiet at the region, which is then closed if each element has a
    /// choice. False says nothing.
    pub fn are_quiet(
        &self,
        p: &Problem,
        trail: &Trail,
        rules: &mut Vec<Box<dyn Propagator>>,
    ) -> bool
        requires { FollowWhile (λ b. meaning b) p.now.given trail.now self.now.follow rules.old.items self.now.counted self.now.table self.now.tally }
        ensures closed { IsTrue result → HaveChoices p.now.given (sets trail.now.region) → IsClosed p.now.given (sets trail.now.region) }
        ensures follow { FollowWhile (λ b. meaning b) p.now.given trail.now self.now.follow rules.new.items self.now.counted self.now.table self.now.tally }
    {
        if !self.follow {
            return false;
        }
        ask(p, trail, rules)
    }
}

// posts them where they cover each standard kind, and says whether that was done
fn are_posted(p: &Problem, region: &Region, rules: &mut Vec<Box<dyn Propagator>>) -> bool
    requires { IsRegionOf p.now.given region.now }
    ensures { IsTrue result → AreFollowing (λ b. meaning b) p.now.given (record { region = region.now; marks = [] }) rules.new.items }
{
    if !covered(rules) {
        return false;
    }
    match post_all(p, region, rules) {
        Ok(()) => true,
        Err(_) => false,
    }
}

// narrows an element of a trail, and says what it had; None where there is no memory to say it
fn applied(trail: &mut Trail, kept: &mut Domain, change: Change) -> Result<Option<Before>, Memory>
    requires { HasElement trail.old.region change.element }
    ensures machines { length trail.new.region.machines ≡ length trail.old.region.machines }
    ensures nodes { length trail.new.region.nodes ≡ length trail.old.region.nodes }
    ensures sets { OnOk result ((e : AnyElement) → sets trail.new.region e
        ≡ keeping change.element (on_side change.side change.part) (sets trail.old.region) e) }
    ensures marks { trail.new.marks ≡ trail.old.marks }
    ensures before { IfOk result (λ b. IfSome b (λ before. domain_before before kept.new (domain_at trail.new.region change.element) ≡ domain_at trail.old.region change.element)) }
    ensures err { OnErr result (trail.new ≡ trail.old) }
{
    match trail.apply_told(change, kept) {
        Ok(before) => Ok(Some(before)),
        Err(_) => {
            trail.apply(change)?;
            Ok(None)
        }
    }
}

// tells all of a change, where they follow; whether they follow still
fn rules_told(
    p: &Problem,
    g: &Region,
    rules: &mut Vec<Box<dyn Propagator>>,
    change: Change,
    before: Before,
    kept: &Domain,
    follow: bool,
) -> bool
    requires region { IsTrue follow → IsRegionOf p.now.given g.now }
    requires narrowed { IsTrue follow → IsNarrowed p.now.given g.now change before kept.now }
    requires agreed { IsTrue follow → TopsAgree (λ b. meaning b) p.now.given (sets_before g.now change.element before kept.now) rules.old.items }
    ensures follow { IsTrue result → IsTrue follow }
    ensures told { IsTrue result → Pairs (λ b. meaning b) (ToldSame p.now.given (sets g.now)) rules.old.items rules.new.items }
{
    if !follow {
        return false;
    }
    match tell_all(p, g, rules, change, before, kept) {
        Ok(()) => true,
        Err(_) => false,
    }
}

// changes the numbers of the machine that is narrowed, where they are kept; whether they are kept still
fn table_told(
    p: &Problem,
    g: &Region,
    table: &mut Table,
    change: Change,
    before: Before,
    kept: &Domain,
    counted: bool,
) -> bool
    requires region { IsTrue counted → IsSized p.now.given g.now }
    requires element { IsTrue counted → IsElement p.now.given change.element }
    requires fewer { IsTrue counted → AreFewer (sets g.now change.element) (choices (domain_before before kept.now (domain_at g.now change.element))) }
    requires right { IsTrue counted → AreStanding p.now.given (sets_before g.now change.element before kept.now) table.old.top }
    ensures counted { IsTrue result → IsTrue counted }
    ensures older { table.new.older ≡ table.old.older }
    ensures top { IsTrue result → AreStanding p.now.given (sets g.now) table.new.top }
{
    if !counted {
        return false;
    }
    match table.told(p, g, change, before, kept) {
        Ok(()) => true,
        Err(_) => false,
    }
}

// what is known to be held together once an element is narrowed: the same, where that has a choice left. Where its machine
// stands otherwise more may be held, and it is to be told anew
fn tally_told(
    p: &Problem,
    g: &Region,
    x: Element,
    stands: bool,
    tally: Option<Tally>,
) -> Option<Tally>
    requires { HasElement g.now x }
    ensures { (s : Sets) (keep : AnyChoice → Bool) → ((e : AnyElement) → sets g.now e ≡ keeping x keep s e)
        → IfSome tally (IsTally p.now.given s) → IfSome result (IsTally p.now.given (sets g.now)) }
{
    if stands && !g.domain(x).is_empty() {
        tally
    } else {
        None
    }
}

// makes a mark in a trail, and in each that follows it; whether they follow still
fn mark_told(
    p: &Problem,
    trail: &mut Trail,
    rules: &mut Vec<Box<dyn Propagator>>,
    follow: bool,
) -> Result<bool, Memory>
    requires { IsTrue follow → AreFollowing (λ b. meaning b) p.now.given trail.old rules.old.items }
    ensures ok { OnOk result (trail.new ≡ record { region = trail.old.region; marks = trail.old.region ∷ trail.old.marks }) }
    ensures err { OnErr result (trail.new ≡ trail.old) }
    ensures follow { IfOk result (λ yes. IsTrue yes → AreFollowing (λ b. meaning b) p.now.given trail.new rules.new.items) }
    ensures still { OnErr result (IsTrue follow → AreFollowing (λ b. meaning b) p.now.given trail.new rules.new.items) }
{
    trail.mark()?;
    if !follow {
        return Ok(false);
    }
    // there are no more marks than are counted
    trail.marks();
    match mark_all(rules) {
        Ok(()) => Ok(true),
        Err(_) => Ok(false),
    }
}

// makes a mark in the numbers, where they are kept; whether they are kept still
fn table_marked(table: &mut Table, counted: bool) -> bool
    ensures counted { IsTrue result → IsTrue counted }
    ensures marked { IsTrue result → table.new ≡ record { older = table.old.older ++ table.old.top ∷ []; top = table.old.top } }
{
    if !counted {
        return false;
    }
    match table.mark() {
        Ok(()) => true,
        Err(_) => false,
    }
}

// goes back to the last mark of a trail, also in all that follow it
fn back_told(p: &Problem, trail: &mut Trail, rules: &mut Vec<Box<dyn Propagator>>, follow: bool)
    requires marked { 0 < length trail.old.marks }
    requires follow { IsTrue follow → AreFollowing (λ b. meaning b) p.now.given trail.old rules.old.items }
    ensures marks { trail.old.marks ≡ trail.new.region ∷ trail.new.marks }
    ensures follow { IsTrue follow → AreFollowing (λ b. meaning b) p.now.given trail.new rules.new.items }
{
    trail.back();
    if !follow {
        return;
    }
    back_all(rules);
}

// goes back to the last mark of the numbers, where they are kept
fn table_back(table: &mut Table, counted: bool)
    requires { IsTrue counted → 0 < length table.old.older }
    ensures { IsTrue counted → table.old.older ≡ table.new.older ++ table.new.top ∷ [] }
{
    if counted {
        table.back();
    }
}

// whether all that follow a trail are quiet at its region
fn ask(p: &Problem, trail: &Trail, rules: &mut Vec<Box<dyn Propagator>>) -> bool
    requires { AreFollowing (λ b. meaning b) p.now.given trail.now rules.old.items }
    ensures closed { IsTrue result → HaveChoices p.now.given (sets trail.now.region) → IsClosed p.now.given (sets trail.now.region) }
    ensures follow { AreFollowing (λ b. meaning b) p.now.given trail.now rules.new.items }
{
    match ask_all(p, trail.region(), rules) {
        Ok(answer) => is_quiet(answer),
        Err(_) => false,
    }
}

// whether nothing is cut by an answer
fn is_quiet(answer: Answer) -> bool
    ensures { IsTrue result → answer ≡ Answer.Quiet }
{
    match answer {
        Answer::Quiet => true,
        Answer::Cut(_, _, _) | Answer::Fail(_) => false,
    }
}
