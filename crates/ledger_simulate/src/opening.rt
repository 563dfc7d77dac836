//! The first events of a run.
ghost use Rattle.std.specs.Prelude.{◌≡◌, ◌++◌, ◌∷◌, [], OnOk, map};
ghost use Rattle.std.specs.List.{flat_map};
ghost use Rattle.simulate_parts.specs.Team.{others};
ghost use Rattle.ledger_simulate.specs.Handling.{ChangesEnginesAlone};
ghost use Rattle.ledger_simulate.specs.Opening.{actions_of, first_poll, first_tick, opening, starts};
ghost use Rattle.ledger_simulate.specs.Plans.{named_late};
ghost use Rattle.ledger_simulate.specs.declared.event.Event.TheVariants.{Act};

use crate::agenda::Agenda;
use crate::event::Event;
use crate::plan::Plan;
use crate::world::{World, named_late_by};
use ledger_codec::OutOfMemory;
use simulate_parts::{Action, Crash, EngineDefinition, Peer, is_among};

/// How often the exit condition is polled, in milliseconds.
pub const EXIT_POLL: u64 = 25;

/// Makes the first events of a run: the starts of the participants that aren't delayed, the actions of the
/// schedules, the random crash and the exit poll.
pub fn open<D: EngineDefinition>(
    plan: &Plan<D>,
    world: &mut World<D>,
    agenda: &mut Agenda,
    polls: bool,
) -> Result<(), OutOfMemory>
    ensures made { OnOk result (agenda.new
        ≡ record agenda.old {
          events = agenda.old.events
              ++ opening plan.now.participants plan.now.crashes polls;
        }) }
    ensures changes_alone { OnOk result
        (ChangesEnginesAlone (D.peer_of plan.now.engine) agenda.old agenda.new world.old world.new) }
    ensures exercise { OnOk result (world.new.exercise ≡ world.old.exercise) }
{
    start_prompt(plan, world, agenda)?;
    set_failures(agenda, plan.crashes.as_slice(), polls)?;
    Ok(())
}

/// Starts the participants that aren't delayed, in order.
fn start_prompt<D: EngineDefinition>(
    plan: &Plan<D>,
    world: &mut World<D>,
    agenda: &mut Agenda,
) -> Result<(), OutOfMemory>
    ensures made { OnOk result (agenda.new
        ≡ record agenda.old {
          events = agenda.old.events
              ++ starts (others (named_late plan.now.crashes) plan.now.participants);
        }) }
    ensures changes_alone { OnOk result
        (ChangesEnginesAlone (D.peer_of plan.now.engine) agenda.old agenda.new world.old world.new) }
    ensures exercise { OnOk result (world.new.exercise ≡ world.old.exercise) }
{
    for pk in plan.participants.as_slice() {
        start_if_prompt(plan, world, agenda, pk)?;
    }
    Ok(())
}

/// Starts a participant, where it isn't delayed.
fn start_if_prompt<D: EngineDefinition>(
    plan: &Plan<D>,
    world: &mut World<D>,
    agenda: &mut Agenda,
    pk: &Peer,
) -> Result<(), OutOfMemory>
    ensures made { OnOk result (agenda.new
        ≡ record agenda.old {
          events = agenda.old.events
              ++ starts (others (named_late plan.now.crashes) (pk.now ∷ []));
        }) }
    ensures changes_alone { OnOk result
        (ChangesEnginesAlone (D.peer_of plan.now.engine) agenda.old agenda.new world.old world.new) }
    ensures exercise { OnOk result (world.new.exercise ≡ world.old.exercise) }
{
    if is_among(named_late_by(plan.crashes.as_slice()), pk) {
        return Ok(());
    }
    world.launch(plan, agenda, *pk)
}

/// Sets the actions of the schedules, the random crash and the exit poll.
fn set_failures(agenda: &mut Agenda, crashes: &[Crash], polls: bool) -> Result<(), OutOfMemory>
    ensures { OnOk result (agenda.new
        ≡ record agenda.old {
          events = agenda.old.events
              ++ flat_map actions_of crashes.now
              ++ flat_map first_tick crashes.now
              ++ first_poll polls;
        }) }
{
    set_actions(agenda, crashes)?;
    set_ticks(agenda, crashes)?;
    if polls {
        agenda.after(EXIT_POLL, Event::ExitPoll)?;
    }
    Ok(())
}

/// Sets the actions of each schedule, in the order of the configured failures.
fn set_actions(agenda: &mut Agenda, crashes: &[Crash]) -> Result<(), OutOfMemory>
    ensures { OnOk result
        (agenda.new ≡ record agenda.old { events = agenda.old.events ++ flat_map actions_of crashes.now }) }
{
    for crash in crashes {
        set_schedule(agenda, crash)?;
    }
    Ok(())
}

/// Sets the actions of a failure's schedule.
fn set_schedule(agenda: &mut Agenda, crash: &Crash) -> Result<(), OutOfMemory>
    ensures { OnOk result
        (agenda.new ≡ record agenda.old { events = agenda.old.events ++ actions_of crash.now }) }
{
    match crash {
        Crash::Schedule(schedule) => set_each(agenda, schedule.events()),
        _ => Ok(()),
    }
}

/// Sets these actions, at their times.
fn set_each(agenda: &mut Agenda, actions: &[(u64, Action)]) -> Result<(), OutOfMemory>
    ensures { OnOk result (agenda.new
        ≡ record agenda.old { events = agenda.old.events ++ map (λ e. (e.0, Act e.1)) actions.now }) }
{
    for action in actions {
        agenda.after(action.0, Event::Act(action.1))?;
    }
    Ok(())
}

/// Sets the first crash of each random failure.
fn set_ticks(agenda: &mut Agenda, crashes: &[Crash]) -> Result<(), OutOfMemory>
    ensures { OnOk result
        (agenda.new ≡ record agenda.old { events = agenda.old.events ++ flat_map first_tick crashes.now }) }
{
    for crash in crashes {
        set_tick(agenda, crash)?;
    }
    Ok(())
}

/// Sets the first crash of a failure, where it is random.
fn set_tick(agenda: &mut Agenda, crash: &Crash) -> Result<(), OutOfMemory>
    ensures { OnOk result
        (agenda.new ≡ record agenda.old { events = agenda.old.events ++ first_tick crash.now }) }
{
    match crash {
        Crash::Random { frequency, .. } => agenda.after(*frequency, Event::CrashTick),
        _ => Ok(()),
    }
}
