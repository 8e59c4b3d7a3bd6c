//! A law about rings that a rule only moves.
ghost use Rattle.std.specs.Prelude.{◌≡◌, ◌↔◌, ℕ, ℤ, List, length};
ghost use Rattle.word_image.specs.LocalRules.{LocalRule};
ghost use Rattle.word_image.specs.Rings.{IsRing, ring_image, ring_letter, ring_letters};
ghost use Rattle.moved_configs.specs.MovedWindows.{IsMovedBy};

/// Law: a rule only moves the configuration that repeats a ring for ever by s cells if and only if the image of the
/// ring is the ring, read from its place s on.
pub fn moved_rings()
    ensures { (r : LocalRule) (s : ℤ) (p : List ℕ) → IsRing r.states p → (IsMovedBy r s (ring_letter p) ↔ (ring_image r p ≡ ring_letters p s (length p))) }
{}
