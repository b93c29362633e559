//! Tests of the language's readers, of codes and their verifier, and of the compiler, by their public calls. They stand
//! in a crate of their own, so that no crate below is proved a second time for them.
#![tactic(auto)]

#[cfg(test)]
mod codes;
#[cfg(test)]
mod expressions;
#[cfg(test)]
mod faults;
#[cfg(test)]
mod forms;
#[cfg(test)]
mod language;
#[cfg(test)]
mod layout;
#[cfg(test)]
mod limits;
#[cfg(test)]
mod listing;
#[cfg(test)]
mod parts;
#[cfg(test)]
mod procedures;
#[cfg(test)]
mod programs;
#[cfg(test)]
mod rows;
#[cfg(test)]
mod shown;
