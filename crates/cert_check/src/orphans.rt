//! Checks an orphan, which is a word without a preimage. A step on a letter leads from a set of nodes to the set of all
//! nodes that edges with this label reach from it. The steps of an orphan lead from the set of all nodes to the empty
//! set.

ghost use Rattle.word_image.specs.LocalRules.{IsWord};
ghost use Rattle.word_image.specs.Graphs.{full_set};
ghost use Rattle.cert_conditions.specs.Sets.{LeadsTo};
ghost use Rattle.cert_check.specs.Checks.{IsChecked};

use cert_conditions::{Condition, Refusal};
use cert_values::{Cert, SurjectivePart};
use word_image::{Rule, Side, edge_rows, step};

/// Checks that the steps on the letters of the orphan lead from the set of all nodes to the empty set.
pub fn orphan_read(cert: &Cert) -> Result<(), Refusal>
    ensures { IsChecked cert.now Condition.OrphanRead result }
{
    match &cert.surjective {
        SurjectivePart::Sets(_) | SurjectivePart::Pairs(_) => Ok(()),
        SurjectivePart::Orphan(word) => {
            if reached(&cert.rule, word.as_slice()) == 0 {
                Ok(())
            } else {
                Err(Refusal::Orphan)
            }
        }
    }
}

/// Returns the set to which the steps on the letters of this word lead from the set of all nodes.
fn reached(rule: &Rule, word: &[u8]) -> u16
    requires { IsWord rule.now.states word.now }
    ensures { LeadsTo rule.now (full_set rule.now) word.now result }
{
    let edges = edge_rows(rule, Side::Right);
    let mut set = rule.all_nodes();
    for letter in word {
        set = step(rule, &edges, set, *letter);
    }
    set
}
