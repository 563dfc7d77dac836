//! What a run is made of.
ghost use Rattle.std.specs.Prelude.{◌≡◌, ◌++◌, ◌∷◌, [], ◌≢◌, IfOk, IfSome, IsTrue, None, Some};
ghost use Rattle.ledger_simulate.specs.Plans.{Runs, first_or, fits_beside};

use crate::setting::Setting;
use ledger_codec::{List, OutOfMemory};
use simulate_parts::{
    Crash, EngineDefinition, ExitCondition, FaultConfig, FinalizationProperty, Fraction, Peer,
    Property, SimLink, push,
};
use std::alloc::Global;

/// A plan of runs. Times are in milliseconds. Without an exit condition a run ends once the target count
/// of validators has finalized a view of at least `required_finalizations`.
#[derive(Drop)]
pub struct Plan<D: EngineDefinition> {
    pub seed: u64,
    pub participants: List<Peer>,
    pub link: SimLink,
    pub engine: D,
    pub crashes: List<Crash>,
    pub required_finalizations: u64,
    pub exit_condition: Option<Box<dyn ExitCondition>>,
    pub timeout: Option<u64>,
    pub storage_fault: Option<FaultConfig>,
    pub finalization_property: List<Box<dyn FinalizationProperty>>,
    pub property: List<Box<dyn Property>>,
    pub max_events: u64,
}

/// Makes a plan that can be run, and runs it under each of its seeds.
#[derive(Drop)]
pub struct PlanBuilder<D: EngineDefinition> {
    pub alloc: Global,
    pub seeds: List<u64>,
    pub setting: Setting,
    pub link: SimLink,
    pub engine: D,
    pub required_finalizations: u64,
    pub exit_condition: Option<Box<dyn ExitCondition>>,
    pub timeout: Option<u64>,
    pub storage_fault: Option<FaultConfig>,
    pub finalization_property: List<Box<dyn FinalizationProperty>>,
    pub property: List<Box<dyn Property>>,
    pub max_events: u64,
}

impl<D: EngineDefinition> PlanBuilder<D> {
    ghost use Rattle.ledger_simulate.specs.Built.{plan_of};

    /// A plan of the engine's participants: seed 0, links of 10 ms with a spread of 5 that lose nothing,
    /// 10 finalizations, no timeout, no storage fault and 1,000,000 events at most.
    pub fn new(alloc: Global, engine: D) -> Result<Self, OutOfMemory>
        ensures engine { IfOk result (λ b. b.engine ≡ engine) }
        ensures participants { IfOk result
            (λ b. IfSome (D.taking_part engine) (λ told. b.setting.participants ≡ told)) }
        ensures nothing { IfOk result (λ b.
            (b.setting.crashes ≡ [])
            × (b.exit_condition ≡ None)
            × (b.timeout ≡ None)
            × (b.storage_fault ≡ None)
            × (b.finalization_property ≡ [])
            × (b.property ≡ [])) }
        ensures numbers { IfOk result (λ b. (b.required_finalizations ≡ 10) × (b.max_events ≡ 1000000)) }
        ensures link { IfOk result (λ b.
            (b.link.latency ≡ 10)
            × (b.link.jitter ≡ 5)
            × (b.link.success.num ≡ 1)
            × (b.link.success.den ≡ 1)) }
        ensures seeds { IfOk result (λ b. b.seeds ≡ 0 ∷ []) }
    {
        let participants = List::from_vec(engine.participants(alloc)?);
        let mut seeds = List::new(alloc);
        push(alloc, &mut seeds, 0)?;
        Ok(PlanBuilder {
            alloc,
            seeds,
            setting: Setting::new(alloc, participants),
            link: SimLink {
                latency: 10,
                jitter: 5,
                success: Fraction { num: 1, den: 1 },
            },
            engine,
            required_finalizations: 10,
            exit_condition: None,
            timeout: None,
            storage_fault: None,
            finalization_property: List::new(alloc),
            property: List::new(alloc),
            max_events: 1_000_000,
        })
    }

    /// Runs the plan under these seeds.
    pub fn seeds(mut self, seeds: Vec<u64>) -> Self
        requires { seeds.items ≢ [] }
        ensures { result ≡ record self { seeds = seeds.items } }
    {
        self.seeds = List::from_vec(seeds);
        self
    }

    /// Runs the plan under this seed alone. A refused call gives the builder up.
    pub fn seed(mut self, seed: u64) -> Result<Self, OutOfMemory>
        ensures { IfOk result (λ b. b ≡ record self { seeds = seed ∷ [] }) }
    {
        let mut seeds = List::new(self.alloc);
        push(self.alloc, &mut seeds, seed)?;
        self.seeds = seeds;
        Ok(self)
    }

    /// Every link at the start of a run.
    pub fn link(mut self, link: SimLink) -> Self
        ensures { result ≡ record self { link = link } }
    {
        self.link = link;
        self
    }

    /// Whether this failure may be added: a plan has at most one that delays participants and at most one
    /// that is random.
    pub fn may_crash(&self, crash: &Crash) -> bool
        ensures { result ≡ fits_beside self.now.setting.crashes crash.now }
    {
        self.setting.may_crash(crash)
    }

    /// With one failure more. A refused call gives the builder up.
    pub fn crash(mut self, crash: Crash) -> Result<Self, OutOfMemory>
        requires { IsTrue (fits_beside self.setting.crashes crash) }
        ensures crashes { IfOk result (λ b. b.setting.crashes ≡ self.setting.crashes ++ crash ∷ []) }
        ensures others { IfOk result (λ b.
            (setting : _)
            × (b ≡ record self { setting = setting })
            × (setting.participants ≡ self.setting.participants)) }
    {
        let setting = self.setting.crash(self.alloc, crash)?;
        self.setting = setting;
        Ok(self)
    }

    /// The view that validators have to finalize, where no exit condition is set.
    pub fn required_finalizations(mut self, n: u64) -> Self
        ensures { result ≡ record self { required_finalizations = n } }
    {
        self.required_finalizations = n;
        self
    }

    /// When a run ends.
    pub fn exit_condition(mut self, condition: Box<dyn ExitCondition>) -> Self
        ensures { result ≡ record self { exit_condition = Some condition } }
    {
        self.exit_condition = Some(condition);
        self
    }

    /// The time after which no event may be due.
    pub fn timeout(mut self, ms: u64) -> Self
        ensures { result ≡ record self { timeout = Some ms } }
    {
        self.timeout = Some(ms);
        self
    }

    /// The storage fault that engines are told of, until a schedule sets another.
    pub fn with_storage_fault(mut self, fault: FaultConfig) -> Self
        ensures { result ≡ record self { storage_fault = Some fault } }
    {
        self.storage_fault = Some(fault);
        self
    }

    /// With one check more of the states at each report. A refused call gives the builder up.
    pub fn finalization_property(
        mut self,
        property: Box<dyn FinalizationProperty>,
    ) -> Result<Self, OutOfMemory>
        ensures { IfOk result
            (λ b. b ≡ record self { finalization_property = self.finalization_property ++ property ∷ [] }) }
    {
        push(self.alloc, &mut self.finalization_property, property)?;
        Ok(self)
    }

    /// With one check more at the end. A refused call gives the builder up.
    pub fn property(mut self, property: Box<dyn Property>) -> Result<Self, OutOfMemory>
        ensures { IfOk result (λ b. b ≡ record self { property = self.property ++ property ∷ [] }) }
    {
        push(self.alloc, &mut self.property, property)?;
        Ok(self)
    }

    /// The number of events after which a run stops.
    pub fn max_events(mut self, n: u64) -> Self
        ensures { result ≡ record self { max_events = n } }
    {
        self.max_events = n;
        self
    }

    /// The plan, under the first of the seeds.
    pub fn build(self) -> Plan<D>
        ensures plan { result ≡ plan_of self }
        ensures runs { Runs result.participants result.crashes }
    {
        let (_seeds, plan) = self.parts();
        plan
    }

    /// The seeds, and the plan under the first of them.
    pub fn parts(self) -> (List<u64>, Plan<D>)
        ensures seeds { result.0 ≡ self.seeds }
        ensures plan { result.1 ≡ plan_of self }
        ensures runs { Runs result.1.participants result.1.crashes }
    {
        let PlanBuilder {
            alloc: _,
            seeds,
            setting,
            link,
            engine,
            required_finalizations,
            exit_condition,
            timeout,
            storage_fault,
            finalization_property,
            property,
            max_events,
        } = self;
        let Setting {
            participants,
            crashes,
        } = setting;
        let plan = Plan {
            seed: first_seed(seeds.as_slice()),
            participants,
            link,
            engine,
            crashes,
            required_finalizations,
            exit_condition,
            timeout,
            storage_fault,
            finalization_property,
            property,
            max_events,
        };
        (seeds, plan)
    }
}

/// The first of these seeds, 0 where there is none.
fn first_seed(seeds: &[u64]) -> u64
    ensures { result ≡ first_or seeds.now 0 }
{
    match seeds.first() {
        Some(seed) => *seed,
        None => 0,
    }
}
