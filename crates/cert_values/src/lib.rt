//! The certificate of a rule as a type: its answers with their evidence, and the JSON texts of a certificate.
//!
//! A certificate answers for one rule whether it is surjective, injective, right-closing and left-closing, and whether
//! it conserves the sum of its cells. Each answer comes with *evidence*, which can be tested without a search. The
//! text of a certificate is one JSON object. Let the rule have k states, width m and N = k^(m - 1) nodes. Then the
//! answers have these keys:
//!
//! | Key | If the answer is yes | If the answer is no |
//! |---|---|---|
//! | `surjective` | `{"sets":[..]}` with sets of nodes | `{"orphan":WORD}` |
//! | `injective` | `{"c":C,"n":L}` with a window | `{"twins":[WORD,WORD]}` |
//! | `right`, `left` | `{"ahead":A}` with a look-ahead | `{"split":[TAIL,TAIL]}` |
//! | `conserving` | `{"flux":[..]}` with a number for each node | `{"ring":WORD}` |
//!
//! - A set of nodes is a number below 2^N. Node u is in the set if bit u of the number is 1.
//! - A window has L letters of an image, at least one, and a place C, which is at most L + m - 2.
//! - A look-ahead is at least 1.
//! - A number of a flux is from -1,000,000 to 1,000,000.
//! - A WORD is a string of hexadecimal digits, and a TAIL is the text of a configuration over the rule's letters.
//!
//! The page of the crate cert_conditions explains the kinds of evidence: orphans, windows, twins, look-aheads, splits,
//! fluxes and rings.
//!
//! A certificate has three other keys. `version` is 1, 2 or 3, and `rule` is a text of the rule. `ranks` is
//! `{"backward":[..],"forward":[..]}`. Each of the two arrays has a number or `null` for each pair of nodes. The
//! *forward rank* of a pair of nodes is the greatest n for which two words of n + m - 1 letters with the same image
//! begin with these nodes. The *backward rank* is the same number for words that end with these nodes. A number in an
//! array is a *claim*: the rank of the pair is at most this number. `null` claims nothing.
//!
//! From version 2 on, a certificate may have the key `weights`: an array with a number from 0 to 255 for each letter.
//! This is the weight of the letter in a sum. Without this key each letter weighs its own value. In version 3
//! `surjective` may also be `{"pairs":[..]}`, where the pair (u, v) has the number u N + v. All numbers except those
//! of a flux are below 2^16.
//!
//! The shift to the left by one cell has this certificate, here in two lines:
//!
//! ```text
//! {"conserving":{"flux":[0,-1]},"injective":{"c":1,"n":1},"left":{"ahead":2},"ranks":{"backward":[null,0,0,null],
//! "forward":[null,null,null,null]},"right":{"ahead":1},"rule":"2:2:0:t0101","surjective":{"sets":[3,1,2]},"version":1}
//! ```
//!
//! Bytes that aren't the text of a certificate have exactly one first fault, a [`ShapeFault`]. The crate `cert_format`
//! reads and writes these texts. The crate `cert_conditions` says which conditions a certificate must meet.
#![tactic(auto)]

mod cert;
mod cert_version;
mod parts;
mod shape_fault;

pub use cert::Cert;
pub use cert_version::CertVersion;
pub use parts::{InjectivePart, SidePart, SumPart, SurjectivePart};
pub use shape_fault::{Key, ShapeFault};
