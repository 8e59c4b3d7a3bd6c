//! The versions of certificates. A certificate can list sets of nodes to prove that a rule is surjective. A step leads
//! from a set, on a letter, to the set of all nodes that edges with this label reach from the set.
ghost use Rattle.std.specs.Prelude.{◌≡◌, ◌≢◌, IfSome, IfNone};
ghost use Rattle.cert_values.specs.Versions.{number_of, names_weights, lists_pairs};

/// The version of a certificate. It says what the certificate may contain, and which conditions it must meet.
#[derive(Clone, Copy, Debug, PartialEq, Eq)]
pub enum CertVersion {
    /// The certificate may list sets of nodes. Each step of a listed set leads to a listed set. Each letter weighs
    /// its own value.
    One,
    /// Each step of a listed set leads to a set that contains a listed set. The certificate may name weights of the
    /// letters.
    Two,
    /// Like version 2, but the certificate may list pairs of nodes instead of sets.
    Three,
}

impl CertVersion {
    /// Returns the version with this number, or None if the number isn't 1, 2 or 3.
    pub fn of(number: u64) -> Option<CertVersion>
        ensures some { IfSome result (λ v. number ≡ number_of v) }
        ensures none { IfNone result ((v : CertVersion) → number ≢ number_of v) }
    {
        match number {
            1 => Some(CertVersion::One),
            2 => Some(CertVersion::Two),
            3 => Some(CertVersion::Three),
            _ => None,
        }
    }

    /// Returns the number of the version: 1, 2 or 3.
    pub fn number(self) -> u64
        ensures { result ≡ number_of self }
    {
        match self {
            CertVersion::One => 1,
            CertVersion::Two => 2,
            CertVersion::Three => 3,
        }
    }

    /// Returns whether a certificate of this version may name the weights of the letters.
    pub fn names_weights(self) -> bool
        ensures { result ≡ names_weights self }
    {
        match self {
            CertVersion::One => false,
            CertVersion::Two | CertVersion::Three => true,
        }
    }

    /// Returns whether a certificate of this version may list pairs of nodes.
    pub fn lists_pairs(self) -> bool
        ensures { result ≡ lists_pairs self }
    {
        match self {
            CertVersion::One | CertVersion::Two => false,
            CertVersion::Three => true,
        }
    }
}
