//! All tests of the crates: examples that were worked out by hand, and calls of the program that fail partway.
//!
//! Some tests examine crates below the program, because the program never shows these results. They use only public
//! functions. The other tests pass words to [`ca_cli::run`], with a source or a sink in memory that fails in the
//! middle. They compare the status, and the bytes that the sink has taken, with the expected ones. The scripts
//! `.ci/program` and `.ci/certificates` test what the program prints if nothing fails.
//!
//! The tests have a crate of their own, because the tests of a crate would make its proofs run once more.
#![tactic(auto)]

#[cfg(test)]
mod calls;
#[cfg(test)]
mod families;
#[cfg(test)]
mod faulty_sinks;
#[cfg(test)]
mod faulty_sources;
#[cfg(test)]
mod graphs;
#[cfg(test)]
mod images;
#[cfg(test)]
mod inverse_maps;
#[cfg(test)]
mod known_rules;
#[cfg(test)]
mod least_walks;
#[cfg(test)]
mod pair_steps;
#[cfg(test)]
mod searches;
#[cfg(test)]
mod streams;
#[cfg(test)]
mod tails;
#[cfg(test)]
mod trims;
