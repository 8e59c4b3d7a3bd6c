//! Computes the image of a word.
ghost use Rattle.std.specs.Prelude.{◌≡◌, ◌+◌, ◌≤◌, length, alloc_error, IfOk, IfSome, IfNone, IsOkUnless};
ghost use Rattle.word_image.specs.LocalRules.{IsRule, IsWord};
ghost use Rattle.word_image.specs.Words.{image};
ghost use Rattle.word_image.specs.ImageFaults.{image_fault};

use crate::local_rule::{Rule, first_foreign};
use std::alloc::{AllocError, Global};

/// Why a word has no image.
#[derive(Clone, Copy, Debug, PartialEq, Eq)]
pub enum ImageFault {
    /// The letter at this place isn't below k. It is the first such letter.
    Letter(usize),
    /// The word has fewer than m - 1 letters.
    Short,
    /// There is not enough memory.
    Memory(AllocError),
}

/// Returns the image of a word: the letters that the rule gives for its windows of m letters, from left to right. The
/// word must have at least m - 1 letters, all below k. Its image has m - 1 letters fewer.
///
/// Returns `Letter` if some letter isn't below k, and otherwise `Short` if the word is too short. Returns `Memory`
/// only if the word has an image.
pub fn image(alloc: Global, rule: &Rule, word: &[u8]) -> Result<Vec<u8>, ImageFault>
    ensures image { IfOk result (λ v. v.items ≡ image rule.now word.now) }
    ensures refused { IfSome (image_fault rule.now word.now) (λ fault. result ≡ Err fault) }
    ensures accepted { IfNone (image_fault rule.now word.now) (IsOkUnless result (ImageFault.Memory alloc_error)) }
{
    if let Some(place) = first_foreign(rule.k(), word) {
        return Err(ImageFault::Letter(place));
    }
    if word.len() + 1 < usize::from(rule.m()) {
        return Err(ImageFault::Short);
    }
    windows_image(alloc, rule, word).map_err(ImageFault::Memory)
}

/// Returns the image of a word that has at least m - 1 letters, all below k. The only error is lack of memory.
fn windows_image(alloc: Global, rule: &Rule, word: &[u8]) -> Result<Vec<u8>, AllocError>
    requires rule { IsRule rule.now }
    requires word { IsWord rule.now.states word.now }
    requires long { rule.now.width ≤ length word.now + 1 }
    ensures { IfOk result (λ v. v.items ≡ image rule.now word.now) }
{
    let width = usize::from(rule.m());
    let count = word.len() + 1 - width;
    let mut letters = Vec::with_capacity(alloc, count)?;
    for start in 0..count {
        letters.push(rule.apply(&word[start..start + width]))?;
    }
    Ok(letters)
}
