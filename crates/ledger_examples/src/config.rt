//! How databases are laid out, and the version that this port carries.
ghost use Rattle.std.specs.Prelude.{◌≡◌, codes};

/// The layout of a full database.
#[derive(Clone, Copy, PartialEq, Eq, Debug)]
pub struct Config {
    /// Operations in a blob.
    pub items_per_blob: u64,
    /// Bytes held before they are written.
    pub write_buffer: u64,
}

impl Config {
    /// The layout of the example databases.
    pub const EXAMPLE: Config = Config {
        items_per_blob: 4096,
        write_buffer: 4096,
    };
}

/// The layout of a compact database.
#[derive(Clone, Copy, PartialEq, Eq, Debug)]
pub struct CompactConfig {
    /// States in a section.
    pub items_per_section: u64,
    /// Bytes held before they are written.
    pub write_buffer: u64,
}

impl CompactConfig {
    /// The layout of the compact example databases.
    pub const EXAMPLE: CompactConfig = CompactConfig {
        items_per_section: 4096,
        write_buffer: 1024,
    };
}

/// The version of the Rust crate that this one is a port of.
pub fn crate_version() -> &'static str
    ensures { result.now ≡ codes "2026.7.1" }
{
    "2026.7.1"
}
