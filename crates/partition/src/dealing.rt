//! The constraints of each part, dealt to all parts in one pass.
ghost use Rattle.std.specs.Prelude.{◌≡◌, ◌<◌, ◌++◌, ◌==◌, ◌∷◌, [], ℕ, Some, None, IfOk, OnOk, length, if◌then◌else◌};
ghost use Rattle.slices.specs.Forms.{form_of as the_form_of, form_seen};
ghost use Rattle.parts.specs.Splits.{is_joint as the_is_joint};
ghost use Rattle.partition.specs.Cutting.{constraints_by, home_by, list_at};

use crate::cutting::cut;
use crate::faults::Division;
use crate::numbering::Numbers;
use crate::reach::form_reach;
use crate::sharing::put_all;
use base::Memory;
use catalogue::{Constraint, Problem};
use slices::Form;
use slices::form::form_of;
use std::alloc::Global;

/// Whether a form speaks of all that it names together.
fn is_joint(form: &Form) -> bool
    ensures { result ≡ the_is_joint (form_seen form.now) }
{
    match form {
        Form::Apart(_)
        | Form::Together(_, _)
        | Form::Ordered(_, _)
        | Form::InTurn(_)
        | Form::Bounded(_, _, _)
        | Form::Powered(_, _) => true,
        Form::Allowed(_, _) | Form::Settled => false,
    }
}

/// Puts a constraint at the end of the list of a number, if there is one.
pub(crate) fn put(
    lists: &mut [Vec<Constraint>],
    i: usize,
    constraint: Constraint,
) -> Result<(), Memory>
    ensures each { OnOk result ((j : ℕ) → j < length lists.old → list_at lists.new j ≡ list_at lists.old j ++ (if i == j then constraint ∷ [] else [])) }
{
    if i < lists.len() {
        lists[i].push(constraint)?;
    }
    Ok(())
}

/// The part of a constraint that speaks of all that it names together: the first that it names.
fn home_of(d: &Division, constraint: &Constraint) -> Option<usize>
    ensures { result ≡ home_by d.now (the_form_of constraint.now) }
{
    let form = form_of(constraint);
    if is_joint(&form) {
        Some(form_reach(&d.machines, &d.nodes, &form).first())
    } else {
        None
    }
}

/// Puts a constraint into the list of its one part.
fn put_home(
    alloc: Global,
    d: &Division,
    numbers: &Numbers,
    home: usize,
    constraint: &Constraint,
    lists: &mut [Vec<Constraint>],
) -> Result<(), Memory>
    requires { home_by d.now (the_form_of constraint.now) ≡ Some home }
    ensures each { OnOk result ((j : ℕ) → j < length lists.old → list_at lists.new j ≡ list_at lists.old j ++ constraints_by d.now numbers.now j (constraint.now ∷ [])) }
{
    let share = cut(alloc, d, numbers, home, constraint)?;
    put(lists, home, share)?;
    Ok(())
}

/// Puts a constraint that speaks of each machine and node by itself into each list.
fn put_alone(
    alloc: Global,
    d: &Division,
    numbers: &Numbers,
    constraint: &Constraint,
    lists: &mut [Vec<Constraint>],
) -> Result<(), Memory>
    requires { home_by d.now (the_form_of constraint.now) ≡ None }
    ensures each { OnOk result ((j : ℕ) → j < length lists.old → list_at lists.new j ≡ list_at lists.old j ++ constraints_by d.now numbers.now j (constraint.now ∷ [])) }
{
    put_all(alloc, d, numbers, constraint, lists)?;
    Ok(())
}

/// Puts a constraint into the lists of the parts that have it, cut down to each.
fn put_shares(
    alloc: Global,
    d: &Division,
    numbers: &Numbers,
    constraint: &Constraint,
    lists: &mut [Vec<Constraint>],
) -> Result<(), Memory>
    ensures each { OnOk result ((j : ℕ) → j < length lists.old → list_at lists.new j ≡ list_at lists.old j ++ constraints_by d.now numbers.now j (constraint.now ∷ [])) }
{
    match home_of(d, constraint) {
        Some(home) => put_home(alloc, d, numbers, home, constraint, lists),
        None => put_alone(alloc, d, numbers, constraint, lists),
    }
}

/// Puts each constraint into the lists of the parts that have it.
fn deal_all(
    alloc: Global,
    d: &Division,
    numbers: &Numbers,
    constraints: &[Constraint],
    lists: &mut [Vec<Constraint>],
) -> Result<(), Memory>
    ensures each { OnOk result ((j : ℕ) → j < length lists.old → list_at lists.new j ≡ list_at lists.old j ++ constraints_by d.now numbers.now j constraints.now) }
{
    for constraint in constraints {
        put_shares(alloc, d, numbers, constraint, lists)?;
    }
    Ok(())
}

/// So many empty lists.
#[tactic(auto, using(crate::proofs::DealLemmas::empty_more))]
fn empty_lists(alloc: Global, count: usize) -> Result<Vec<Vec<Constraint>>, Memory>
    ensures each { IfOk result (λ lists. length lists.items ≡ count) }
    ensures empty { IfOk result (λ lists. (j : ℕ) → list_at lists.items j ≡ []) }
{
    let mut lists = Vec::new(alloc);
    for i in 0..count {
        lists.push(Vec::new(alloc))?;
    }
    Ok(lists)
}

/// The constraints of each of so many parts.
pub(crate) fn deal(
    alloc: Global,
    p: &Problem,
    d: &Division,
    numbers: &Numbers,
    count: usize,
) -> Result<Vec<Vec<Constraint>>, Memory>
    ensures each { IfOk result (λ lists. length lists.items ≡ count) }
    ensures dealt { IfOk result (λ lists. (j : ℕ) → j < count → list_at lists.items j ≡ constraints_by d.now numbers.now j p.now.given.constraints) }
{
    let mut lists = empty_lists(alloc, count)?;
    deal_all(alloc, d, numbers, p.constraints(), &mut lists)?;
    Ok(lists)
}
