// The rounds of cycles.
ghost use Rattle.std.specs.Prelude.{◌≡◌, ◌<◌, ◌+◌, ◌++◌, ◌∷◌, ◌⊎◌, [], None, Some, length, get_or, IfOk, MatchOption, OnOk, set};
ghost use Rattle.wf_model.specs.Linear.{IsOnCycle};
ghost use Rattle.wf_model.specs.WellFormed.{IsWellFormed};
ghost use Rattle.wf_recur.specs.Cycles.{AreCyclesOf, step_of};
ghost use Rattle.wf_recur.specs.Rounds.{ArePlaced, AreRoundsBelow, IsClosed, IsPlaced, IsRoundFrom, numbers_of, rounds_in, stands_in};
ghost use Rattle.wf_recur.specs.Steps.{AreOnlySteps};

use crate::steps::target;
use crate::table::{CycleNo, Cycles, OnCycle};
use std::alloc::{AllocError, Global};
use wf_spec::{Grammar, ModNo, Step};

/// The continuing step of a module that has no place yet.
fn open_step(steps: &[Option<Step>], on: &[Option<OnCycle>], m: ModNo) -> Option<Step>
    requires step { m.0 < length steps.now }
    requires place { m.0 < length on.now }
    ensures { MatchOption result (IsPlaced (stands_in on.now) m.0 ⊎ (get_or steps.now m.0 None ≡ None))
        (λ s. (get_or (stands_in on.now) m.0 None ≡ None) × (get_or steps.now m.0 None ≡ Some s)) }
{
    if on[m.0 as usize].is_some() {
        return None;
    }
    steps[m.0 as usize]
}

/// Gives a module the next place of a round.
fn stand(
    round: &mut Vec<ModNo>,
    on: &mut [Option<OnCycle>],
    m: ModNo,
    cycle: CycleNo,
    step: Step,
) -> Result<(), AllocError>
    requires in_range { m.0 < length on.old }
    requires short { length round.old.items < 1024 }
    ensures round { OnOk result (numbers_of round.new.items ≡ numbers_of round.old.items ++ m.0 ∷ []) }
    ensures placed { stands_in on.new ≡ set (stands_in on.old) m.0 (Some (record { cycle = cycle.0; place = length round.old.items; step = step_of step })) }
{
    let place = round.len() as u16;
    on[m.0 as usize] = Some(OnCycle { cycle, place, step });
    round.push(m)?;
    Ok(())
}

/// Goes round the cycle of a module, from it on, and gives each of its modules a place. Fails only for want of memory.
///
/// Cost: one look at each module of the cycle.
fn round_from(
    alloc: Global,
    g: &Grammar,
    steps: &[Option<Step>],
    on: &mut [Option<OnCycle>],
    cycle: CycleNo,
    first: ModNo,
) -> Result<Vec<ModNo>, AllocError>
    requires formed { IsWellFormed g.now.core }
    requires steps { AreOnlySteps g.now.core steps.now }
    requires one_each { length on.old ≡ length g.now.core.modules }
    requires closed { IsClosed g.now.core (stands_in on.old) }
    requires on_cycle { IsOnCycle g.now.core first.0 }
    requires no_place { get_or (stands_in on.old) first.0 None ≡ None }
    ensures round { IfOk result (λ r. IsRoundFrom g.now.core first.0 (numbers_of r.items)) }
    ensures placed { IfOk result (λ r. ArePlaced g.now.core cycle.0 (numbers_of r.items) (stands_in on.old) (stands_in on.new)) }
{
    let mut round = Vec::new(alloc);
    let mut m = first;
    while let Some(step) = open_step(steps, on, m) {
        stand(&mut round, on, m, cycle, step)?;
        m = target(g, step);
    }
    Ok(round)
}

/// Adds the round of a module's cycle, if the module has a continuing step and no place yet: then it is the least of its cycle.
fn add_round(
    alloc: Global,
    g: &Grammar,
    steps: &[Option<Step>],
    rounds: &mut Vec<Vec<ModNo>>,
    on: &mut [Option<OnCycle>],
    m: ModNo,
) -> Result<(), AllocError>
    requires formed { IsWellFormed g.now.core }
    requires steps { AreOnlySteps g.now.core steps.now }
    requires module_no { m.0 < length g.now.core.modules }
    requires below { AreRoundsBelow g.now.core m.0 (rounds_in rounds.old.items) (stands_in on.old) }
    ensures { OnOk result (AreRoundsBelow g.now.core (m.0 + 1) (rounds_in rounds.new.items) (stands_in on.new)) }
{
    if open_step(steps, on, m).is_none() {
        return Ok(());
    }
    let cycle = CycleNo(rounds.len() as u16);
    let round = round_from(alloc, g, steps, on, cycle, m)?;
    rounds.push(round)?;
    Ok(())
}

/// The cycles of a grammar whose modules have one continuing step at most. Fails only for want of memory.
///
/// Cost: two looks at each module.
pub fn rounds(alloc: Global, g: &Grammar, steps: &[Option<Step>]) -> Result<Cycles, AllocError>
    requires { AreOnlySteps g.now.core steps.now }
    ensures { IfOk result (λ c. AreCyclesOf g.now.core c) }
{
    let mut rounds = Vec::new(alloc);
    let mut on = vec![in alloc; None; steps.len()]?;
    for m in 0..g.modules().len() {
        add_round(alloc, g, steps, &mut rounds, &mut on, ModNo(m as u16))?;
    }
    Ok(Cycles::of_tables(rounds, on))
}
