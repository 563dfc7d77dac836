//! What the words of `sync` ask for.
ghost use Rattle.std.specs.Prelude.{◌≡◌, map, string_bytes, None, true, IfSome};
ghost use Rattle.ledger_examples.specs.Names.{has_client_mode};
ghost use Rattle.ledger_sync.specs.Forms.{form_of, form_given, nothing_given};

use crate::options::{Given, options_of};
use ledger_examples::{DatabaseType, SyncMode};
use sync_client::Limits;

/// A form of `sync`. The address is the word behind `sync`.
#[derive(Clone, Copy, PartialEq, Eq, Debug)]
pub struct SyncForm {
    /// How the client syncs.
    pub mode: SyncMode,
    /// The family of the database.
    pub family: DatabaseType,
    /// How much is asked at once.
    pub limits: Limits,
}

/// What the words ask for, None exactly where they are no form of `sync`.
pub fn sync_form(words: &[String]) -> Option<SyncForm>
    ensures form { result ≡ form_of (map string_bytes words.now) }
    ensures client { IfSome result (λ form. has_client_mode form.family form.mode ≡ true) }
{
    match words {
        [word, _, options @ ..] => {
            if word.as_str() != "sync" {
                return None;
            }
            let given = options_of(options, NOTHING)?;
            form_given(given)
        }
        _ => None,
    }
}

const NOTHING: Given = Given {
    mode: None,
    family: None,
    batch: None,
    outstanding: None,
};

/// The form with what was given, and the default of what wasn't. None where the family has no such client or
/// the limits aren't any.
fn form_given(given: Given) -> Option<SyncForm>
    ensures form { result ≡ form_given given }
    ensures client { IfSome result (λ form. has_client_mode form.family form.mode ≡ true) }
{
    let mode = given.mode.unwrap_or(SyncMode::Full);
    let family = given.family.unwrap_or(DatabaseType::Any);
    if !family.supports_client_mode(mode) {
        return None;
    }
    let outstanding = given.outstanding.unwrap_or(1);
    if outstanding > 64 {
        return None;
    }
    let limits = Limits::new(given.batch.unwrap_or(50), outstanding as usize)?;
    Some(SyncForm {
        mode,
        family,
        limits,
    })
}
