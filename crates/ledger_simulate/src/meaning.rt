//! What a plan means.
ghost use Rattle.ledger_simulate.specs.Meaning.{Meaning};

use crate::plan::Plan;
use simulate_parts::{EngineDefinition, ExitCondition, FinalizationProperty, Property};

/// Names what contracts say of a plan, and has no code.
pub trait Means {
    type Definition;

    type Engine;

    type State;

    type Check;

    type EndCheck;

    type Condition;

    ghost meaning: { Self →
        Meaning Self.Definition Self.Engine Self.State Self.Check Self.EndCheck Self.Condition };
}

impl<D: EngineDefinition> Means for Plan<D> {
    type Definition = D;

    type Engine = D::Engine;

    type State = D::State;

    type Check = Box<dyn FinalizationProperty>;

    type EndCheck = Box<dyn Property>;

    type Condition = Box<dyn ExitCondition>;

    ghost meaning = { λ plan. record {
      engine = plan.engine;
      peer_of = D.peer_of plan.engine;
      journal = D.journal plan.engine;
      reports = D.reports plan.engine;
      channels = D.carried_on plan.engine;
      max_size = D.carried_size plan.engine;
      height = D.State.height_of;
      shown = D.State.bytes_of;
      participants = plan.participants;
      crashes = plan.crashes;
      link = plan.link;
      checks = plan.finalization_property;
      check_name = λ p. (FinalizationProperty-box p).finalization_name p.value;
      complaint = λ p. (FinalizationProperty-box p).finalization_complaint p.value;
      properties = plan.property;
      property_name = λ p. (Property-box p).property_name p.value;
      objection = λ p. (Property-box p).property_complaint p.value;
      condition = plan.exit_condition;
      condition_name = λ c. (ExitCondition-box c).exit_name c.value;
      polls = λ c. (ExitCondition-box c).exit_polls c.value;
      verdict = λ c. (ExitCondition-box c).exit_verdict c.value;
      required = plan.required_finalizations;
      max_events = plan.max_events;
      timeout = plan.timeout;
    } };
}
