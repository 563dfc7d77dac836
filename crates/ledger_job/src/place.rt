//! Where each line of a job may stand.
ghost use Rattle.std.specs.Prelude.{◌≡◌};
ghost use Rattle.ledger_job.specs.Places.{is_opening, is_in_rounds, takes_payments, takes_open, takes_remote, takes_target, has_room, takes_update, fits};

use crate::kind::JobKind;
use crate::line::Line;

/// How many later targets a job may name.
const MAX_UPDATES: usize = 8;

/// The part of a job that a line stands in.
#[derive(Clone, Copy, Debug, PartialEq, Eq)]
pub enum Section {
    /// Before any block.
    Opening,
    /// In a body.
    InBody,
    /// In a block of rounds, before its first round.
    InRounds,
    /// In a round.
    InRound,
}

impl Section {
    fn is_opening(self) -> bool
        ensures { result ≡ is_opening self }
    {
        matches!(self, Section::Opening)
    }

    fn is_in_rounds(self) -> bool
        ensures { result ≡ is_in_rounds self }
    {
        matches!(self, Section::InRounds | Section::InRound)
    }

    fn takes_payments(self) -> bool
        ensures { result ≡ takes_payments self }
    {
        matches!(self, Section::InBody | Section::InRound)
    }
}

/// What of the lines before it decides whether a line may stand where it does.
#[derive(Clone, Copy, Debug, PartialEq, Eq)]
pub(crate) struct Before {
    pub kind: JobKind,
    pub section: Section,
    pub limited: bool,
    pub targeted: bool,
    pub updates: usize,
}

impl Before {
    fn takes_open(self) -> bool
        ensures { result ≡ takes_open self }
    {
        self.kind.is_local() && self.section.is_opening()
    }

    /// Whether the lines of a peer's log may stand here.
    fn takes_remote(self) -> bool
        ensures { result ≡ takes_remote self }
    {
        self.kind.is_follow() && self.section.is_opening()
    }

    fn takes_target(self) -> bool
        ensures { result ≡ takes_target self }
    {
        self.takes_remote() && !self.targeted
    }

    fn has_room(self) -> bool
        ensures { result ≡ has_room self }
    {
        self.targeted && self.updates < MAX_UPDATES
    }

    fn takes_update(self) -> bool
        ensures { result ≡ takes_update self }
    {
        self.takes_remote() && self.has_room()
    }

    /// Whether the line may stand behind these.
    pub fn fits(self, line: &Line) -> bool
        ensures { result ≡ fits self line.now }
    {
        match line {
            Line::Skipped | Line::Body | Line::Rounds => true,
            Line::Open(_) => self.takes_open(),
            Line::Target(_) => self.takes_target(),
            Line::Update(_) => self.takes_update(),
            Line::Limits(_) => self.section.is_opening() && !self.limited,
            Line::Round => self.section.is_in_rounds(),
            Line::Pay(_) => self.section.takes_payments(),
        }
    }
}
