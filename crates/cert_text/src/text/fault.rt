//! Why the text of a certificate could not be read.
ghost use Rattle.std.specs.Prelude.{◌≡◌};
ghost use Rattle.cert_text.specs.declared.text.fault.Stop.TheVariants.{Memory};

use duty_core::NoMemory;

/// Why bytes could not be read as a certificate.
#[derive(Clone, Copy, Debug, PartialEq, Eq)]
pub enum CertFault {
    /// The bytes are the text of no certificate. `line` counts from 1: it is the first line that
    /// does not fit, or where the text ends too early, the one after its whole lines.
    Bad { line: u64 },
    /// There was no memory for the certificate.
    Memory,
}

/// Why reading stopped.
#[derive(Clone, Copy, Debug, PartialEq, Eq)]
pub enum Stop {
    /// There was no memory for what was read.
    Memory,
    /// What stands here does not fit. So many bytes were left, of this line and what is after it.
    Left(usize),
}

impl From<NoMemory> for Stop {
    ghost from_gives = { λ _ stop. stop ≡ Memory };

    fn from(_: NoMemory) -> Stop {
        Stop::Memory
    }
}
