//! Reads the texts of certificates.
//!
//! `from_bytes` reads a text that the crate [`cert_values`] describes. For other bytes it returns the first fault. It
//! looks for faults in this order: JSON, object, version, rule, surjective, injective, right, left, conserving,
//! weights, ranks, and other keys. In the comments the *shape* of a value means whether it is the object, array,
//! number or string that the place needs, within its limits. For example, a look-ahead of 0 has the wrong shape.
//!
//! `to_bytes` of the crate [`cert_writing`] writes a certificate. The crate `cert_check` tests whether the answers of a
//! certificate are true.
//!
//! To read n bytes takes time O(n log n), since an object is a map, and O(n) for the lists in it, and space O(n).
#![tactic(auto)]

mod cert_fault;
mod evidence;
mod items;
mod members;
mod misread;
mod reading;
mod steps;
mod words;

pub use cert_fault::CertFault;
pub use cert_values::{
    Cert, CertVersion, InjectivePart, Key, ShapeFault, SidePart, SumPart, SurjectivePart,
};
pub use cert_writing::{
    certificate_value, flux_value, rule_value, text_has_one_certificate, to_bytes, weights_value,
    word_value,
};
pub use reading::from_bytes;
