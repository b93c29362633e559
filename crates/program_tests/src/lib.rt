//! Tests of the program's commands, from files to files, by their public calls: code files and both machines, tables
//! and indexes loaded and saved, command files compiled and run. They stand in a crate of their own, so that no crate
//! below is proved a second time for them.
#![tactic(auto)]

#[cfg(test)]
mod all_faults;
#[cfg(test)]
mod assembler;
#[cfg(test)]
mod budgets;
#[cfg(test)]
mod cases;
#[cfg(test)]
mod changed_files;
#[cfg(test)]
mod codes;
#[cfg(test)]
mod command_files;
#[cfg(test)]
mod divisors;
#[cfg(test)]
mod failing;
#[cfg(test)]
mod hand_codes;
#[cfg(test)]
mod listings;
#[cfg(test)]
mod operated;
#[cfg(test)]
mod parts;
#[cfg(test)]
mod respects;
#[cfg(test)]
mod resumed;
#[cfg(test)]
mod several_files;
#[cfg(test)]
mod sorted;
#[cfg(test)]
mod stored;
#[cfg(test)]
mod tables;
#[cfg(test)]
mod talks;
#[cfg(test)]
mod tested;
