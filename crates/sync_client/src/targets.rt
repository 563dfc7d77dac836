//! Later targets, named in the middle of a sync.
ghost use Rattle.std.specs.Prelude.{◌≡◌, List};
ghost use Rattle.std.specs.declared.option.Option.{Option};
ghost use Rattle.ledger_log.specs.declared.target.Target.{Target};
ghost use Rattle.sync_client.specs.Updates.{answer_next, answers_left};

use ledger_log::Target;
use std::marker::Model;

/// How many later targets one call takes.
pub const MAX_UPDATES: usize = 8;

/// Names later targets of a log that grows while it is fetched. A session asks it once after each good answer
/// that leaves something to fetch, while it took fewer than [`MAX_UPDATES`].
pub trait Targets {
    /// The answers that are still to come.
    ghost answers: { Self → List (Option Target) };

    /// The next answer: a later target, or None where none is named now or ever again. It takes no memory.
    fn next(&mut self) -> Option<Target>
        ensures gives { result ≡ answer_next (answers self.old) }
        ensures leaves { answers self.new ≡ answers_left (answers self.old) };
}

/// No later target.
#[derive(Clone, Copy, Debug, PartialEq, Eq)]
pub struct NoTargets;

impl Targets for NoTargets {
    ghost use Rattle.std.specs.Prelude.{[]};

    ghost answers = { λ _. [] };

    fn next(&mut self) -> Option<Target> {
        None
    }
}

/// These answers, one after another, and then none.
#[derive(Drop)]
pub struct ListTargets {
    answers: Vec<Option<Target>>,
    place: usize,
}

impl Model for ListTargets {
    ghost use Rattle.std.specs.Prelude.{List, drop};
    ghost use Rattle.std.specs.declared.option.Option.{Option};
    ghost use Rattle.ledger_log.specs.declared.target.Target.{Target};

    ghost Value = { List (Option Target) };

    ghost view = { λ l. drop l.place l.answers.items };
}

impl ListTargets {
    /// The list of these answers.
    pub fn new(answers: Vec<Option<Target>>) -> ListTargets
        ensures { result ≡ answers.items }
    {
        ListTargets { answers, place: 0 }
    }
}

impl Targets for ListTargets {
    ghost answers = { λ answers. answers };

    fn next(&mut self) -> Option<Target> {
        if self.place >= self.answers.len() {
            return None;
        }
        let answer = self.answers[self.place];
        self.place += 1;
        answer
    }
}
