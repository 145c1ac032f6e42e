//! What is kept of one change, and how it is undone.
ghost use Rattle.std.specs.Prelude.{◌≡◌, ◌++◌, ◌∷◌, [], OnOk, OnErr, IfOk, length};
ghost use Rattle.domains.specs.Prelude.{domain_at, HasElement, in_part, keeping, out_of_part, restored, sets};
ghost use Rattle.cluster.specs.declared.ids.Element.{Element as AnyElement};
ghost use Rattle.trail.specs.Logs.{undone, CanUndo, HasKept};

use base::Memory;
use cluster::Element;
use domains::undo::Lost;
use domains::{Domain, Part, Region};

/// One entry of the log.
#[derive(Drop)]
pub enum Entry {
    /// A mark was made.
    Mark,
    /// The element had this domain.
    Whole(Element, Box<Domain>),
    /// The element has lost this.
    Lost(Element, Lost),
}

/// Undoes what an entry tells of.
pub fn undo(region: &mut Region, entry: Entry)
    requires { CanUndo entry region.old }
    ensures { region.new ≡ undone entry region.old }
{
    match entry {
        Entry::Mark => (),
        Entry::Whole(e, old) => drop(region.set(e, Box::into_inner(old))),
        Entry::Lost(e, lost) => region.restore(e, lost),
    }
}

/// Keeps of an element the choices that are in a part, and its old domain in the log.
pub fn keep(region: &mut Region, log: &mut Vec<Entry>, e: Element, part: Part) -> Result<(), Memory>
    requires { HasElement region.old e }
    ensures machines { length region.new.machines ≡ length region.old.machines }
    ensures nodes { length region.new.nodes ≡ length region.old.nodes }
    ensures sets { OnOk result ((x : AnyElement) → sets region.new x ≡ keeping e (in_part part) (sets region.old) x) }
    ensures kept { OnOk result (HasKept region.old region.new log.old.items log.new.items) }
    ensures err { OnErr result ((region.new ≡ region.old) × (log.new.items ≡ log.old.items)) }
{
    let old = region.keep(e, part);
    match Box::new(*log.allocator(), old) {
        Ok(old) => write(region, log, Entry::Whole(e, old)),
        Err(failed) => {
            drop(region.set(e, failed.value));
            Err(Memory)
        }
    }
}

/// Takes from an element the choices that are in a part, keeps what it has lost in the log, and says it.
pub fn cut(
    region: &mut Region,
    log: &mut Vec<Entry>,
    e: Element,
    part: Part,
) -> Result<Lost, Memory>
    requires { HasElement region.old e }
    ensures machines { length region.new.machines ≡ length region.old.machines }
    ensures nodes { length region.new.nodes ≡ length region.old.nodes }
    ensures lost { IfOk result (λ lost. restored lost (domain_at region.new e) ≡ domain_at region.old e) }
    ensures sets { OnOk result ((x : AnyElement) → sets region.new x ≡ keeping e (out_of_part part) (sets region.old) x) }
    ensures kept { OnOk result (HasKept region.old region.new log.old.items log.new.items) }
    ensures err { OnErr result ((region.new ≡ region.old) × (log.new.items ≡ log.old.items)) }
{
    let lost = region.cut(e, part);
    write(region, log, Entry::Lost(e, lost))?;
    Ok(lost)
}

// writes an entry, or undoes it where there is no memory
fn write(region: &mut Region, log: &mut Vec<Entry>, entry: Entry) -> Result<(), Memory>
    requires { CanUndo entry region.old }
    ensures ok { OnOk result ((region.new ≡ region.old) × (log.new.items ≡ log.old.items ++ entry ∷ [])) }
    ensures err { OnErr result ((region.new ≡ undone entry region.old) × (log.new.items ≡ log.old.items)) }
{
    match log.push(entry) {
        Ok(()) => Ok(()),
        Err(failed) => {
            undo(region, failed.value);
            Err(Memory)
        }
    }
}
