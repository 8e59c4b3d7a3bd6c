//! Writes the texts of certificates.
//!
//! [`to_bytes`] writes the text that the crate [`cert_values`] describes, with ascending keys and without blanks. It
//! writes the weights only if some letter doesn't weigh its own value. For example, the rule of a certificate becomes the
//! member `"rule":"2:2:0:t0101"`. [`certificate_value`] makes the JSON object that is written, and other functions make
//! the values of some of its parts. The crate `cert_format` reads such a text.
//!
//! To write a text of n bytes takes time and space O(n).
#![tactic(auto)]

mod writing;

pub use writing::{
    certificate_value, flux_value, rule_value, text_has_one_certificate, to_bytes, weights_value,
    word_value,
};
