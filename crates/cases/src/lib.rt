// The worked cases and every limit from both sides, run as tests.
#![tactic(auto)]

#[cfg(test)]
mod doing;
#[cfg(test)]
mod lines;
#[cfg(test)]
mod memory;
#[cfg(test)]
mod plates;
#[cfg(test)]
mod readings;
#[cfg(test)]
mod refusals;
