//! Names of modes, families and storage, as they stand in words and texts.
ghost use Rattle.std.specs.Prelude.{◌≡◌, MatchOption};
ghost use Rattle.ledger_examples.specs.declared.names.SyncMode.{SyncMode as Mode};
ghost use Rattle.ledger_examples.specs.declared.names.DatabaseType.{DatabaseType as Database};
ghost use Rattle.ledger_examples.specs.declared.names.StorageKind.{StorageKind as Kind};
ghost use Rattle.ledger_examples.specs.Names.{mode_name, database_name, storage_name, Reads, is_compact_family, has_client_mode};

/// How a client syncs.
#[derive(Clone, Copy, PartialEq, Eq, Debug)]
pub enum SyncMode {
    /// It fetches the operations.
    Full,
    /// It fetches a compact state.
    Compact,
}

impl SyncMode {
    /// The mode's name.
    pub fn as_str(&self) -> &'static str
        ensures { result.now ≡ mode_name self.now }
    {
        match self {
            SyncMode::Full => "full",
            SyncMode::Compact => "compact",
        }
    }

    /// The mode of this name in letters of either case, None exactly of another.
    pub fn parse(text: &str) -> Option<SyncMode>
        ensures { MatchOption result ((mode : Mode) → Reads text.now (mode_name mode) → ⊥)
            (λ mode. Reads text.now (mode_name mode)) }
    {
        if text.eq_ignore_ascii_case("full") {
            Some(SyncMode::Full)
        } else if text.eq_ignore_ascii_case("compact") {
            Some(SyncMode::Compact)
        } else {
            None
        }
    }
}

/// The family of a database.
#[derive(Clone, Copy, PartialEq, Eq, Debug)]
pub enum DatabaseType {
    /// Keys are updated and deleted.
    Any,
    /// The same, with bits of activity.
    Current,
    /// Keys are set.
    Immutable,
    /// Values are appended.
    Keyless,
}

impl DatabaseType {
    /// The family's name.
    pub fn as_str(&self) -> &'static str
        ensures { result.now ≡ database_name self.now }
    {
        match self {
            DatabaseType::Any => "any",
            DatabaseType::Current => "current",
            DatabaseType::Immutable => "immutable",
            DatabaseType::Keyless => "keyless",
        }
    }

    /// The family of this name in letters of either case, None exactly of another.
    pub fn parse(text: &str) -> Option<DatabaseType>
        ensures { MatchOption result ((database : Database) → Reads text.now (database_name database) → ⊥)
            (λ database. Reads text.now (database_name database)) }
    {
        if text.eq_ignore_ascii_case("any") {
            Some(DatabaseType::Any)
        } else if text.eq_ignore_ascii_case("current") {
            Some(DatabaseType::Current)
        } else if text.eq_ignore_ascii_case("immutable") {
            Some(DatabaseType::Immutable)
        } else if text.eq_ignore_ascii_case("keyless") {
            Some(DatabaseType::Keyless)
        } else {
            None
        }
    }

    /// Whether a client of this family can sync in this mode: in full always, in compact with immutable and
    /// keyless.
    pub fn supports_client_mode(self, mode: SyncMode) -> bool
        ensures { result ≡ has_client_mode self mode }
    {
        match mode {
            SyncMode::Full => true,
            SyncMode::Compact => self.supports_compact_storage(),
        }
    }

    /// Whether a log of this family can be kept without its operations.
    pub fn supports_compact_storage(self) -> bool
        ensures { result ≡ is_compact_family self }
    {
        matches!(self, DatabaseType::Immutable | DatabaseType::Keyless)
    }
}

/// What is kept of a log.
#[derive(Clone, Copy, PartialEq, Eq, Debug)]
pub enum StorageKind {
    /// Its operations from the front on.
    Full,
    /// Its peaks and its last commit.
    Compact,
}

impl StorageKind {
    /// The kind's name.
    pub fn as_str(&self) -> &'static str
        ensures { result.now ≡ storage_name self.now }
    {
        match self {
            StorageKind::Full => "full",
            StorageKind::Compact => "compact",
        }
    }

    /// The kind of this name in letters of either case, None exactly of another.
    pub fn parse(text: &str) -> Option<StorageKind>
        ensures { MatchOption result ((kind : Kind) → Reads text.now (storage_name kind) → ⊥)
            (λ kind. Reads text.now (storage_name kind)) }
    {
        if text.eq_ignore_ascii_case("full") {
            Some(StorageKind::Full)
        } else if text.eq_ignore_ascii_case("compact") {
            Some(StorageKind::Compact)
        } else {
            None
        }
    }
}
