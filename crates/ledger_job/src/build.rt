//! The lines of a job, gathered one after another: a line that asks for nothing takes no memory.
ghost use Rattle.std.specs.Prelude.{◌≡◌, [], OnOk, IfOk, None, is_some, unwrap_or};
ghost use Rattle.ledger_job.specs.Gathered.{seen, before_next, in_block, gathered_after, all_blocks, with_round};
ghost use Rattle.ledger_job.specs.Jobs.{default_limits};
ghost use Rattle.ledger_job.specs.Places.{fits, lacks_target};
ghost use Rattle.ledger_job.specs.declared.place.Section.TheVariants.{Opening, InRound};

use crate::block::Block;
use crate::job::Job;
use crate::kind::JobKind;
use crate::limits::JobLimits;
use crate::line::{Line, Open};
use crate::payment::Payment;
use crate::place::{Before, Section};
use ledger_codec::{List, OutOfMemory};
use ledger_log::Target;
use std::alloc::Global;
use std::mem;

/// What the lines so far ask for. The last block is open: its rounds and its last payments stand by
/// themselves until the next one begins.
#[derive(Drop)]
pub(crate) struct Gathered {
    pub opens: Vec<Open>,
    pub target: Option<Target>,
    pub updates: Vec<Option<Target>>,
    pub limits: Option<JobLimits>,
    pub section: Section,
    pub payments: Vec<Payment>,
    pub rounds: Vec<List<Payment>>,
    pub blocks: Vec<Block<Payment>>,
}

impl Gathered {
    /// No line yet.
    pub fn new(alloc: Global) -> Gathered
        ensures { seen result
            ≡
            record { opens = []; target = None; updates = []; limits = None; section = Opening; payments = []; rounds = []; blocks = [] } }
    {
        Gathered {
            opens: Vec::new(alloc),
            target: None,
            updates: Vec::new(alloc),
            limits: None,
            section: Section::Opening,
            payments: Vec::new(alloc),
            rounds: Vec::new(alloc),
            blocks: Vec::new(alloc),
        }
    }

    /// What decides whether one more line may stand here.
    fn before_next(&self, kind: JobKind) -> Before
        ensures { result ≡ before_next kind (seen self.now) }
    {
        Before {
            kind,
            section: self.section,
            limited: self.limits.is_some(),
            targeted: self.target.is_some(),
            updates: self.updates.len(),
        }
    }

    /// Whether a line may stand behind those so far.
    pub fn takes(&self, kind: JobKind, line: &Line) -> bool
        ensures { result ≡ fits (before_next kind (seen self.now)) line.now }
    {
        self.before_next(kind).fits(line)
    }

    /// Whether the lines so far make no whole job, since none of them is the target that its kind wants.
    pub fn lacks_target(&self, kind: JobKind) -> bool
        ensures { result ≡ lacks_target kind (is_some self.now.target) }
    {
        kind.is_follow() && self.target.is_none()
    }

    /// Takes up one more line.
    pub fn push(&mut self, alloc: Global, line: Line) -> Result<(), OutOfMemory>
        ensures { OnOk result (seen self.new ≡ gathered_after (seen self.old) line) }
    {
        match line {
            Line::Skipped => Ok(()),
            Line::Open(account) => {
                self.opens.push(account)?;
                Ok(())
            }
            Line::Target(target) => {
                self.target = Some(target);
                Ok(())
            }
            Line::Update(target) => {
                self.updates.push(Some(target))?;
                Ok(())
            }
            Line::Limits(limits) => {
                self.limits = Some(limits);
                Ok(())
            }
            Line::Pay(payment) => {
                self.payments.push(payment)?;
                Ok(())
            }
            Line::Body => self.begin_block(alloc, Section::InBody),
            Line::Rounds => self.begin_block(alloc, Section::InRounds),
            Line::Round => self.begin_round(alloc),
        }
    }

    /// Ends the open block, and begins one in this section.
    fn begin_block(&mut self, alloc: Global, section: Section) -> Result<(), OutOfMemory>
        ensures { OnOk result (seen self.new ≡ in_block section (seen self.old)) }
    {
        self.end_block(alloc)?;
        self.section = section;
        self.rounds = Vec::new(alloc);
        self.payments = Vec::new(alloc);
        Ok(())
    }

    /// Ends the open round, if there is one, and begins the next.
    fn begin_round(&mut self, alloc: Global) -> Result<(), OutOfMemory>
        ensures { OnOk result (seen self.new ≡ record (seen self.old) {
          rounds = with_round self.old.section self.old.rounds.items self.old.payments.items;
          section = InRound;
          payments = [];
        }) }
    {
        self.end_round(alloc)?;
        self.section = Section::InRound;
        self.payments = Vec::new(alloc);
        Ok(())
    }

    /// Puts the open round, if there is one, to the rounds of the open block.
    fn end_round(&mut self, alloc: Global) -> Result<(), OutOfMemory>
        ensures rounds { OnOk result (self.new.rounds.items
            ≡ with_round self.old.section self.old.rounds.items self.old.payments.items) }
        ensures opens { self.new.opens ≡ self.old.opens }
        ensures target { self.new.target ≡ self.old.target }
        ensures updates { self.new.updates ≡ self.old.updates }
        ensures limits { self.new.limits ≡ self.old.limits }
        ensures blocks { self.new.blocks ≡ self.old.blocks }
    {
        match self.section {
            Section::InRound => {
                let payments = mem::replace(&mut self.payments, Vec::new(alloc));
                self.rounds.push(List::from_vec(payments))?;
                Ok(())
            }
            Section::Opening | Section::InBody | Section::InRounds => Ok(()),
        }
    }

    /// Puts the open block, if there is one, to the blocks.
    fn end_block(&mut self, alloc: Global) -> Result<(), OutOfMemory>
        ensures blocks { OnOk result (self.new.blocks.items ≡ all_blocks (seen self.old)) }
        ensures opens { OnOk result (self.new.opens.items ≡ self.old.opens.items) }
        ensures target { OnOk result (self.new.target ≡ self.old.target) }
        ensures updates { OnOk result (self.new.updates.items ≡ self.old.updates.items) }
        ensures limits { OnOk result (self.new.limits ≡ self.old.limits) }
    {
        match self.section {
            Section::Opening => Ok(()),
            Section::InBody => {
                let payments = mem::replace(&mut self.payments, Vec::new(alloc));
                self.blocks.push(Block::Body(List::from_vec(payments)))?;
                Ok(())
            }
            Section::InRounds | Section::InRound => {
                self.end_round(alloc)?;
                let rounds = mem::replace(&mut self.rounds, Vec::new(alloc));
                self.blocks.push(Block::Rounds(List::from_vec(rounds)))?;
                Ok(())
            }
        }
    }

    /// The job of all lines. Where none sets limits, 50 operations are asked for at a time, and one request is out.
    pub fn into_job(mut self, alloc: Global) -> Result<Job, OutOfMemory>
        ensures opens { IfOk result (λ job. job.opens ≡ self.opens.items) }
        ensures target { IfOk result (λ job. job.target ≡ self.target) }
        ensures updates { IfOk result (λ job. job.updates ≡ self.updates.items) }
        ensures limits { IfOk result (λ job. job.limits ≡ unwrap_or self.limits default_limits) }
        ensures blocks { IfOk result (λ job. job.blocks ≡ all_blocks (seen self)) }
    {
        self.end_block(alloc)?;
        let limits = self.limits.unwrap_or(JobLimits::usual());
        Ok(Job {
            opens: List::from_vec(self.opens),
            target: self.target,
            updates: List::from_vec(self.updates),
            limits,
            blocks: List::from_vec(self.blocks),
        })
    }
}
