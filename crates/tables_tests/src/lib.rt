//! Tests of values, of files, tables and indexes, and of work areas, by their public calls. The crates below have no
//! tests of their own, so that none is proved a second time for them.
#![tactic(auto)]

#[cfg(test)]
mod areas;
#[cfg(test)]
mod files;
#[cfg(test)]
mod values;
