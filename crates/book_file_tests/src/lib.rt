// Book files on examples: files that are read, with what their books answer, and each refusal with its place.
#![tactic(auto)]

#[cfg(test)]
mod files;
pub mod lending;
#[cfg(test)]
mod refusals;
#[cfg(test)]
mod samples;
#[cfg(test)]
mod tables;
