//! Why a log isn't kept, and why a file isn't opened.
ghost use Rattle.std.specs.Prelude.{◌≡◌, ◌≢◌, ◌⊎◌};
ghost use Rattle.std.specs.IoError.{error_kind};
ghost use Rattle.std.specs.declared.io.ErrorKind.TheVariants.{OutOfMemory};
ghost use Rattle.keeper.specs.declared.fault.KeepFault.TheVariants as keep;
ghost use Rattle.keeper.specs.declared.fault.OpenFault.TheVariants as open_;

use std::io;
use std::io::ErrorKind;
use thiserror::Error;

/// Why a turn kept nothing.
#[derive(Debug, Drop, Error)]
pub enum KeepFault {
    /// Memory was refused.
    #[error("memory was refused")]
    Memory,
    /// The log would have more than 131,072 operations.
    #[error("there are more than 131,072 operations")]
    Full,
    /// Somebody else has changed the file: nothing was written.
    #[error("{0}")]
    Strayed(io::Error),
    /// The file can't be cut, written or synced.
    #[error("{0}")]
    File(io::Error),
}

impl From<io::Error> for KeepFault {
    ghost from_gives = { λ why f. (f ≡ keep.Memory) ⊎ ((f ≡ keep.File why) × (error_kind why ≢ OutOfMemory)) };

    fn from(why: io::Error) -> KeepFault {
        if why.kind() == ErrorKind::OutOfMemory {
            KeepFault::Memory
        } else {
            KeepFault::File(why)
        }
    }
}

/// Why a file isn't opened.
#[derive(Debug, Drop, Error)]
pub enum OpenFault {
    /// Memory was refused.
    #[error("memory was refused")]
    Memory,
    /// The line of this number, from 1 on, tells no part that may follow those before it.
    #[error("line {0} doesn't go on with the log")]
    Line(usize),
    /// So many bytes stand behind the last whole line, and they are no line that was cut short.
    #[error("its last {0} bytes are no line that was cut short")]
    Tail(usize),
    /// The file can't be synced or read.
    #[error("{0}")]
    File(io::Error),
}

impl From<io::Error> for OpenFault {
    ghost from_gives = { λ why f. (f ≡ open_.Memory) ⊎ ((f ≡ open_.File why) × (error_kind why ≢ OutOfMemory)) };

    fn from(why: io::Error) -> OpenFault {
        if why.kind() == ErrorKind::OutOfMemory {
            OpenFault::Memory
        } else {
            OpenFault::File(why)
        }
    }
}
