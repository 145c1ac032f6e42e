//! How far a command is that searches more than once: told on standard error between two searches.

ghost use Rattle.std.specs.Prelude.{IsTrue};
ghost use Rattle.std.specs.Option.{option_copied};

use catalogue::Problem;
use cert_check::{CheckFault, Verdict};
use plan_io::{Desk, OutFault};
use search::Found;
use slices::Plan;
use solver::Solver;
use std::alloc::Global;
use std::cell::Cell;
use std::io;
use std::rt::Clock;
use std::time::Instant;

/// How long it is silent before the first line, and between two, in seconds.
const PAUSE_SECONDS: u64 = 2;

/// What a command searches again and again.
#[derive(Clone, Copy, Debug, PartialEq, Eq)]
pub enum Searched {
    /// Some of the constraints of one problem, as `explain` does.
    Constraints,
    /// The parts of one problem, as `parts` does.
    Parts,
}

/// The searches that were made, and the constraints of the first problem and of the last one that has no valid plan.
#[derive(Clone, Copy, Debug, Default)]
struct Seen {
    searches: u64,
    constraints: usize,
    left: usize,
}

impl Seen {
    // with one search more
    fn after(self, p: &Problem, found: &Found) -> Seen {
        let count = p.constraints().len();
        let is_first = self.searches == 0;
        let is_refuted = match found {
            Found::Infeasible => true,
            Found::Optimal(_) | Found::Undecided { .. } => false,
        };
        Seen {
            searches: self.searches.saturating_add(1),
            constraints: if is_first { count } else { self.constraints },
            left: if is_first || is_refuted {
                count
            } else {
                self.left
            },
        }
    }

    fn say<R: Eprint>(self, rt: &R, searched: Searched) -> io::Result<()> {
        match searched {
            Searched::Constraints => eprintln!(rt;
                "btrplan: search {}, {} of {} constraints left",
                self.searches.saturating_add(1),
                self.left,
                self.constraints
            ),
            Searched::Parts => eprintln!(rt; "btrplan: {} parts solved", self.searches),
        }
    }
}

/// A solver that is another one, and tells how far the command is that asks it again and again, as `explain` and
/// `parts` do.
#[derive(Drop)]
pub struct TellingSolver<'a, S: Solver + Drop, R: Clock + Eprint> {
    solver: S,
    rt: &'a R,
    searched: Searched,
    told: Cell<Option<Instant>>,
    seen: Cell<Seen>,
}

impl<'a, S: Solver + Drop, R: Clock + Eprint> TellingSolver<'a, S, R> {
    /// The solver, of which nothing was asked yet. Where there is no clock nothing is told.
    pub fn new(solver: S, rt: &'a R, searched: Searched) -> TellingSolver<'a, S, R> {
        TellingSolver {
            solver,
            rt,
            searched,
            told: Cell::new(Instant::now(rt).ok()),
            seen: Cell::new(Seen::default()),
        }
    }

    // tells how far it is where the last line is long ago, and no search is the first
    fn tell(&self) {
        let (seen, Some(told)) = (self.seen.get(), self.told.get()) else {
            return;
        };
        let is_due = told
            .elapsed(self.rt)
            .is_ok_and(|pause| pause.as_secs() >= PAUSE_SECONDS);
        if seen.searches > 0 && is_due {
            self.told.set(Instant::now(self.rt).ok());
            // what cannot be said changes nothing
            let _ = seen.say(self.rt, self.searched);
        }
    }
}

impl<S: Solver + Drop, R: Clock + Eprint> Solver for TellingSolver<'_, S, R> {
    fn certify<D: Desk>(
        &self,
        alloc: Global,
        desk: &mut D,
        p: &Problem,
        budget: u64,
        certificate: &str,
    ) -> Result<Found, OutFault> {
        self.tell();
        let certified = self.solver.certify(alloc, desk, p, budget, certificate);
        if let Ok(found) = &certified {
            self.seen.set(self.seen.get().after(p, found));
        }
        certified
    }

    fn check<D: Desk>(
        &self,
        alloc: Global,
        p: &Problem,
        plan: Option<&Plan>,
        desk: &mut D,
        certificate: &str,
        strict: bool,
    ) -> Result<Verdict, CheckFault> {
        self.solver.check(alloc, p, plan, desk, certificate, strict)
    }
}
