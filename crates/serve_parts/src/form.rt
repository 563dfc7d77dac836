//! What the words of `serve` ask for.
ghost use Rattle.std.specs.Prelude.{◌≡◌, ◌≤◌, None, map, string_bytes, is_some, IfSome, IsTrue};
ghost use Rattle.serve_parts.specs.Forms.{form_of, form_given, asked, nothing_given, fits_mode, fits_source, takes_batches, fits_batch, fits_numbers, is_supported, Sound};

use crate::options::{Given, options_of};
use ledger_examples::{DatabaseType, StorageKind, SyncMode};

/// Where the served log comes from.
#[derive(Clone, Copy, PartialEq, Eq, Debug)]
pub enum ServedFrom {
    /// Test operations.
    Test,
    /// The accounts that a job opens.
    Job,
}

/// A form of `serve`.
#[derive(Clone, Copy, PartialEq, Eq, Debug)]
pub struct ServeForm {
    /// How clients sync.
    pub mode: SyncMode,
    /// The family of the log.
    pub family: DatabaseType,
    /// What is kept of the log, in compact mode.
    pub storage: StorageKind,
    /// Where the log comes from.
    pub source: ServedFrom,
    /// The port that is listened on, from 1.
    pub port: u16,
    /// How many test operations the log has, at most 1,000,000.
    pub initial: u64,
    /// The seed of the test operations. Those that are appended have the seeds from the next one on.
    pub seed: u64,
    /// How many connections are served, from 1 to 8.
    pub connections: u64,
    /// How many test operations are appended before each connection is served, at most 9.
    pub batch: u64,
}

/// What the words ask for, None exactly where they are no form of `serve`.
pub fn serve_form(words: &[String]) -> Option<ServeForm>
    ensures form { result ≡ form_of (map string_bytes words.now) }
    ensures bounds { IfSome result Sound }
{
    match words {
        [word, options @ ..] => {
            if word.as_str() != "serve" {
                return None;
            }
            let given = options_of(options, NOTHING)?;
            form_given(given)
        }
        [] => None,
    }
}

const NOTHING: Given = Given {
    mode: None,
    family: None,
    storage: None,
    source: None,
    port: None,
    initial: None,
    seed: None,
    connections: None,
    batch: None,
};

/// What is asked for, with the default of what wasn't given.
fn asked(given: Given) -> ServeForm
    ensures { result ≡ asked given }
{
    ServeForm {
        mode: given.mode.unwrap_or(SyncMode::Full),
        family: given.family.unwrap_or(DatabaseType::Any),
        storage: given.storage.unwrap_or(StorageKind::Full),
        source: given.source.unwrap_or(ServedFrom::Test),
        port: given.port.unwrap_or(8080),
        initial: given.initial.unwrap_or(100),
        seed: given.seed.unwrap_or(0),
        connections: given.connections.unwrap_or(1),
        batch: given.batch.unwrap_or(0),
    }
}

fn fits_mode(mode: SyncMode, family: DatabaseType, named: bool) -> bool
    ensures { result ≡ fits_mode mode family named }
{
    match mode {
        SyncMode::Full => !named,
        SyncMode::Compact => family.supports_compact_storage(),
    }
}

fn fits_source(source: ServedFrom, mode: SyncMode, family: DatabaseType) -> bool
    ensures { result ≡ fits_source source mode family }
{
    match (source, mode, family) {
        (ServedFrom::Test, _, _) => true,
        (ServedFrom::Job, SyncMode::Full, DatabaseType::Any) => true,
        (ServedFrom::Job, _, _) => false,
    }
}

fn takes_batches(mode: SyncMode, family: DatabaseType) -> bool
    ensures { result ≡ takes_batches mode family }
{
    match (mode, family) {
        (SyncMode::Full, DatabaseType::Any | DatabaseType::Current) => true,
        _ => false,
    }
}

fn fits_batch(form: &ServeForm) -> bool
    ensures value { result ≡ fits_batch form.now }
    ensures room { IsTrue result → (form.now.batch ≡ 0 → ⊥) → form.now.connections ≤ 7 }
{
    if form.batch == 0 {
        return true;
    }
    takes_batches(form.mode, form.family) && form.connections <= 7
}

fn fits_numbers(form: &ServeForm) -> bool
    ensures value { result ≡ fits_numbers form.now }
    ensures bounds { IsTrue result → (form.now.initial ≤ 1000000) × (1 ≤ form.now.connections)
        × (form.now.connections ≤ 8) × (form.now.batch ≤ 9) }
{
    form.initial <= 1_000_000 && 1 <= form.connections && form.connections <= 8 && form.batch <= 9
}

/// Whether the combination is supported; `named` says that a storage was named.
fn is_supported(named: bool, form: &ServeForm) -> bool
    ensures value { result ≡ is_supported named form.now }
    ensures bounds { IsTrue result → Sound form.now }
{
    fits_mode(form.mode, form.family, named)
        && fits_source(form.source, form.mode, form.family)
        && fits_numbers(form)
        && fits_batch(form)
}

/// The form with what was given; none of an unsupported combination.
fn form_given(given: Given) -> Option<ServeForm>
    ensures form { result ≡ form_given given }
    ensures bounds { IfSome result Sound }
{
    let form = asked(given);
    if is_supported(given.storage.is_some(), &form) {
        Some(form)
    } else {
        None
    }
}
