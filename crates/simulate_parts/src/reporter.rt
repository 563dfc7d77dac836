//! Listening to what an engine reports.
ghost use Rattle.std.specs.Prelude.{◌≡◌, ◌++◌, ◌∷◌, [], IfSome, List, OnErr, OnOk, Option};
ghost use Rattle.simulate_parts.specs.Reports.{inner_reporter, kept_updates, reporting_peer, update_of_activity};
ghost use Rattle.simulate_parts.specs.declared.reporter.Activity.{Activity};

use crate::lists::copy_bytes;
use crate::peer::{Peer, Round};
use crate::tracker::FinalizationUpdate;
use ledger_codec::{List, OutOfMemory};
use std::alloc::Global;
use std::mem;

/// What an engine reports: the tip of its chain, or a block.
#[derive(Debug, Drop)]
pub enum Activity {
    Tip {
        round: Round,
        height: u64,
        digest: List<u8>,
    },
    Block {
        height: u64,
    },
}

/// A listener. It may tell contracts the list of the activities that it was given.
pub trait Reporter: Drop {
    ghost told: { Self → Option (List Activity) };

    /// Takes an activity.
    fn report(&mut self, activity: &Activity)
        ensures { IfSome (told self.old) (λ before. IfSome (told self.new)
            (λ after. after ≡ before ++ activity.now ∷ [])) };
}

/// A listener that keeps an update for each tip and passes every activity on to another listener.
#[derive(Drop)]
pub struct MonitorReporter {
    alloc: Global,
    pk: Peer,
    inner: Box<dyn Reporter>,
    updates: Vec<FinalizationUpdate>,
}

impl MonitorReporter {
    /// A listener to the engine of `pk`, in front of `inner`.
    pub fn new(alloc: Global, pk: Peer, inner: Box<dyn Reporter>) -> Self
        ensures peer { reporting_peer result ≡ pk }
        ensures inner { inner_reporter result ≡ inner }
        ensures updates { kept_updates result ≡ [] }
    {
        MonitorReporter {
            alloc,
            pk,
            inner,
            updates: Vec::new(alloc),
        }
    }

    /// Keeps the update of a tip, and passes the activity on. A refused call keeps and passes on nothing.
    pub fn report(&mut self, activity: Activity) -> Result<(), OutOfMemory>
        ensures peer { reporting_peer self.new ≡ reporting_peer self.old }
        ensures kept { OnOk result (kept_updates self.new ≡ kept_updates self.old
            ++ update_of_activity (reporting_peer self.old) activity) }
        ensures passed { OnOk result (IfSome (told (inner_reporter self.old))
            (λ before. IfSome (told (inner_reporter self.new))
            (λ after. after ≡ before ++ activity ∷ []))) }
        ensures refused { OnErr result ((kept_updates self.new ≡ kept_updates self.old)
            × (inner_reporter self.new ≡ inner_reporter self.old)) }
    {
        if let Activity::Tip {
            round,
            height,
            digest,
        } = &activity
        {
            let update = FinalizationUpdate {
                pk: self.pk,
                round: *round,
                height: *height,
                block_digest: copy_bytes(self.alloc, digest.as_slice())?,
            };
            self.updates.push(update)?;
        }
        self.inner.report(&activity);
        Ok(())
    }

    /// The updates so far, in order; none is kept on.
    pub fn take(&mut self) -> Vec<FinalizationUpdate>
        ensures taken { result.items ≡ kept_updates self.old }
        ensures empty { kept_updates self.new ≡ [] }
        ensures peer { reporting_peer self.new ≡ reporting_peer self.old }
        ensures inner { inner_reporter self.new ≡ inner_reporter self.old }
    {
        mem::replace(&mut self.updates, Vec::new(self.alloc))
    }
}
