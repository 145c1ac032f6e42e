//! What is found of one part.
use search::Found;
use slices::Plan;
use std::marker::Model;

/// What is found of a part, with the text of its certificate.
///
/// Contracts see it as both.
#[derive(Drop)]
pub(crate) struct SolvedPart {
    found: Found,
    certificate: Vec<u8>,
}

impl Model for SolvedPart {
    ghost use Rattle.part_solver.specs.Solved.{SolvedText};

    ghost Value = { SolvedText };

    ghost view = { λ a. record { found = a.found; certificate = a.certificate.items } };
}

impl SolvedPart {
    ghost use Rattle.std.specs.Prelude.{◌≡◌, false};
    ghost use Rattle.part_solver.specs.Solved.{has_no_plan, is_infeasible, is_optimal, plan_of};

    /// This, with its certificate.
    pub(crate) fn new(found: Found, certificate: Vec<u8>) -> SolvedPart
        ensures { result ≡ record { found = found; certificate = certificate.items } }
    {
        SolvedPart { found, certificate }
    }

    /// Whether the part is infeasible.
    pub(crate) fn is_infeasible(&self) -> bool
        ensures { result ≡ is_infeasible self.now }
    {
        match &self.found {
            Found::Infeasible => true,
            Found::Optimal(_) | Found::Undecided { .. } => false,
        }
    }

    /// Whether an optimal plan was found.
    pub(crate) fn is_optimal(&self) -> bool
        ensures { result ≡ is_optimal self.now }
    {
        match &self.found {
            Found::Optimal(_) => true,
            Found::Infeasible | Found::Undecided { .. } => false,
        }
    }

    /// Whether no plan was found.
    pub(crate) fn has_no_plan(&self) -> bool
        ensures { result ≡ has_no_plan self.now }
    {
        match &self.found {
            Found::Optimal(_) => false,
            Found::Infeasible => true,
            Found::Undecided { best, .. } => best.is_none(),
        }
    }

    /// The bytes of the certificate.
    pub(crate) fn certificate(&self) -> &[u8]
        ensures { result.now ≡ self.now.certificate }
    {
        &self.certificate
    }

    /// The plan that was found.
    pub(crate) fn into_plan(self) -> Plan
        requires { has_no_plan self ≡ false }
        ensures { result ≡ plan_of self }
    {
        let SolvedPart { found, .. } = self;
        match found {
            Found::Optimal(plan) => plan,
            Found::Undecided {
                best: Some(plan),
                ..
            } => plan,
            Found::Infeasible | Found::Undecided { best: None, .. } => unreachable!(),
        }
    }
}
