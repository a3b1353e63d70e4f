use clap::Error;
use clap::error::ErrorKind;
use pls_problem::MakeSpec;
use std::alloc::AllocError;

/// What the program is asked to do.
#[derive(Clone, Copy, Debug, PartialEq, Eq)]
pub enum Mode {
    /// Search the instance that is read.
    Search,
    /// Write an instance that is made.
    Make,
    /// Search an instance that is made.
    Demo,
}

/// What a command line asks for. An option that the mode does not use has its value here all the same.
#[derive(Clone, Copy, Debug, PartialEq, Eq)]
pub struct Settings {
    /// What to do.
    pub mode: Mode,
    /// The seed of the starts.
    pub seed: u64,
    /// The most neighbours that a search evaluates, up to 10^9.
    pub moves: u64,
    /// How many workers search, 1 to 16.
    pub workers: u32,
    /// From how many solutions a search starts, 1 to 64.
    pub starts: u32,
    /// How many rows the shared tree has room for, 64 to 262,144.
    pub rows: u32,
    /// What an instance is made from; its seed is the same.
    pub make: MakeSpec,
}

/// Why there are no settings.
#[derive(Clone, Copy, Debug, PartialEq, Eq)]
pub enum SettingsRefusal {
    /// The words are no command line.
    Usage,
    /// Memory ran out.
    Memory,
}

impl From<AllocError> for SettingsRefusal {
    ghost use Rattle.std.specs.Prelude.{◌≡◌};
    ghost use Rattle.pls_settings.specs.declared.choices.SettingsRefusal.TheVariants.{Memory};

    ghost from_gives = { λ _ e. e ≡ Memory };

    fn from(_want: AllocError) -> SettingsRefusal {
        SettingsRefusal::Memory
    }
}

impl From<Error> for SettingsRefusal {
    ghost use Rattle.std.specs.Prelude.{◌≡◌, ◌≢◌};
    ghost use Rattle.clap.specs.Words.{kind_of};
    ghost use Rattle.clap.specs.declared.error.kind.ErrorKind.TheVariants.{OutOfMemory};
    ghost use Rattle.pls_settings.specs.declared.choices.SettingsRefusal.TheVariants.{Usage};

    ghost from_gives = { λ e r. r ≡ Usage → kind_of e ≢ OutOfMemory };

    fn from(error: Error) -> SettingsRefusal {
        if error.kind() == ErrorKind::OutOfMemory {
            SettingsRefusal::Memory
        } else {
            SettingsRefusal::Usage
        }
    }
}
