//! The error `Misread`: why a JSON value couldn't be read.
ghost use Rattle.std.specs.Prelude.{◌≡◌, alloc_error};
ghost use Rattle.cert_format.specs.declared.misread.Misread.TheVariants as misread;

use crate::cert_fault::CertFault;
use cert_values::{Key, ShapeFault};
use std::alloc::{AllocError, AllocFailed};

/// Why a JSON value couldn't be read.
#[derive(Clone, Copy, Debug, PartialEq, Eq)]
pub enum Misread {
    /// The value has the wrong shape.
    Shape,
    /// There is not enough memory.
    Memory(AllocError),
}

impl Misread {
    /// Returns this error as the fault of the part of a certificate with this key.
    pub fn fault_at(self, key: Key) -> CertFault
        ensures shape { self ≡ Misread.Shape → result ≡ CertFault.Format (ShapeFault.Shape key) }
        ensures memory { self ≡ Misread.Memory alloc_error → result ≡ CertFault.Memory alloc_error }
    {
        match self {
            Misread::Shape => CertFault::Format(ShapeFault::Shape(key)),
            Misread::Memory(fault) => CertFault::Memory(fault),
        }
    }
}

impl From<AllocError> for Misread {
    ghost from_gives = { λ e m. m ≡ misread.Memory e };

    fn from(fault: AllocError) -> Misread {
        Misread::Memory(fault)
    }
}

impl<T: Drop> From<AllocFailed<T>> for Misread {
    ghost from_gives = { λ _ m. m ≡ misread.Memory alloc_error };

    fn from(_: AllocFailed<T>) -> Misread {
        Misread::Memory(AllocError)
    }
}
