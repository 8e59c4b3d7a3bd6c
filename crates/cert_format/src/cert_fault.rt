//! The error `CertFault`: why no certificate could be read from bytes.
use cert_values::ShapeFault;
use std::alloc::AllocError;
use thiserror::Error;

/// Why no certificate could be read from bytes.
#[derive(Debug, PartialEq, Eq, Drop, Error)]
pub enum CertFault {
    /// The bytes aren't the text of a certificate, because of this fault.
    #[error("the bytes are no certificate: {0:?}")]
    Format(ShapeFault),
    /// There is not enough memory.
    #[error(transparent)]
    Memory(AllocError),
}
