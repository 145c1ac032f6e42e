//! The monitor of an execution.
ghost use Rattle.std.specs.Prelude.{◌≡◌, ◌↔◌, IsSome, IsTrue, MatchOption};
ghost use Rattle.judge.specs.Prelude.{choices_of, IsElement, IsPlanOf};
ghost use Rattle.cluster.specs.declared.ids.Element.{Element as AnElement};
ghost use Rattle.executor.specs.{Answers.IsFirst, Answers.StartGives, Answers.StopGives, Laws.IsAtTheEnd, Laws.IsIdle, Laws.IsSafe, Phases.AllEnded};
ghost use Rattle.executor.specs.Views.{IsMonitor, IsSameWork, MayStartNow, NewGives, phases_of};
ghost use Rattle.executor.specs.declared.phase.Phase.TheVariants as Phase;

use crate::hindrance::{first_that_may_start, hindrance, is_finished};
use crate::phase::{NewFault, Phase, StepFault};
use crate::phases::{first_phases, move_to, phase_of};
use crate::times::{Times, all_times};
use catalogue::Problem;
use cluster::Element;
use judge::judge;
use slices::Plan;
use std::alloc::Global;
use std::marker::Model;

/// A valid plan that is carried out: how far the action of each element is.
///
/// Contracts see the problem, the plan and the phase of each element. No call but `new` takes memory.
#[derive(Drop)]
pub struct Monitor<'a> {
    problem: &'a Problem,
    plan: &'a Plan,
    times: Vec<Option<Times>>,
    phases: Vec<Phase>,
}

impl<'a> Model for Monitor<'a> {
    ghost use Rattle.executor.specs.Views.{Execution};

    ghost Value = { Execution };

    ghost use Rattle.executor.specs.Kept.{execution_of, IsKept};

    ghost view = { execution_of };

    ghost invariant = { IsKept };
}

impl<'a> Monitor<'a> {
    /// The monitor of a valid plan, all of whose actions wait; `NotValid` exactly where `judge` finds
    /// a broken rule, with that rule.
    pub fn new(alloc: Global, p: &'a Problem, plan: &'a Plan) -> Result<Monitor<'a>, NewFault>
        requires { IsPlanOf p.now.given plan.now }
        ensures { NewGives p.now plan.now result }
    {
        if let Some(broken) = judge(p, plan) {
            return Err(NewFault::NotValid(broken));
        }
        let Ok(times) = all_times(alloc, p, plan) else {
            return Err(NewFault::Memory);
        };
        let Ok(phases) = first_phases(alloc, p, plan) else {
            return Err(NewFault::Memory);
        };
        Ok(Monitor {
            problem: p,
            plan,
            times,
            phases,
        })
    }

    /// What is so of every monitor: its plan is valid, the phase is `None` exactly where the element
    /// has no action, and where an action does not wait, each action that it waits for has ended.
    pub fn known(&self)
        ensures { IsMonitor self.now }
    {
        let _phases = &self.phases;
    }

    /// At every moment no node is over a capacity, everything present and every image is on a usable
    /// node, and every continuous constraint holds.
    pub fn is_safe(&self)
        ensures { IsSafe self.now.problem.given (choices_of self.now.plan) (phases_of self.now) }
    {
        let _phases = &self.phases;
        crate::laws::executions_are_safe();
    }

    /// How far the action of an element is.
    pub fn phase(&self, e: Element) -> Phase
        requires { IsElement self.now.problem.given e }
        ensures { result ≡ phases_of self.now e }
    {
        phase_of(self.problem, &self.phases, e)
    }

    /// Whether all actions have ended; then all is where the plan has it at the horizon.
    pub fn all_ended(&self) -> bool
        ensures ended { IsTrue result ↔ AllEnded (phases_of self.now) }
        ensures planned { IsTrue result → IsAtTheEnd self.now.problem.given (choices_of self.now.plan) (phases_of self.now) }
    {
        is_finished(self.problem, self.plan, &self.phases)
    }

    /// The first action that may start; there is one where nothing runs, nothing has failed and an
    /// action waits.
    pub fn next_ready(&self) -> Option<Element>
        ensures first { MatchOption result ((e : AnElement) → ¬ MayStartNow self.now e) (IsFirst self.now.problem.given (MayStartNow self.now)) }
        ensures goes_on { IsIdle (phases_of self.now) → IsSome result }
    {
        first_that_may_start(self.problem, self.plan, &self.times, &self.phases)
    }

    /// An action starts.
    ///
    /// `Already` exactly where it does not wait; else `NotReady` exactly where an action has failed, with the
    /// first such, or else where an action that it waits for has not ended, with the first such.
    pub fn start(&mut self, e: Element) -> Result<(), StepFault>
        requires { IsElement self.old.problem.given e }
        ensures event { StartGives self.old.problem.given (choices_of self.old.plan) (phases_of self.old) e (phases_of self.new) result }
        ensures work { IsSameWork self.old self.new }
    {
        let Phase::Waiting = phase_of(self.problem, &self.phases, e) else {
            return Err(StepFault::Already);
        };
        if let Some(first) = hindrance(self.problem, self.plan, &self.times, &self.phases, e) {
            return Err(StepFault::NotReady(first));
        }
        move_to(self.problem, &mut self.phases, e, Phase::Running);
        Ok(())
    }

    /// An action that runs has ended; `NotRunning` exactly where it does not run.
    pub fn ended(&mut self, e: Element) -> Result<(), StepFault>
        requires { IsElement self.old.problem.given e }
        ensures event { StopGives (phases_of self.old) e Phase.Ended (phases_of self.new) result }
        ensures work { IsSameWork self.old self.new }
    {
        let Phase::Running = phase_of(self.problem, &self.phases, e) else {
            return Err(StepFault::NotRunning);
        };
        move_to(self.problem, &mut self.phases, e, Phase::Ended);
        Ok(())
    }

    /// An action that runs has failed; `NotRunning` exactly where it does not run. It keeps what it
    /// holds at its source and its destination, and no further action starts.
    pub fn failed(&mut self, e: Element) -> Result<(), StepFault>
        requires { IsElement self.old.problem.given e }
        ensures event { StopGives (phases_of self.old) e Phase.Failed (phases_of self.new) result }
        ensures work { IsSameWork self.old self.new }
    {
        let Phase::Running = phase_of(self.problem, &self.phases, e) else {
            return Err(StepFault::NotRunning);
        };
        move_to(self.problem, &mut self.phases, e, Phase::Failed);
        Ok(())
    }
}
