//! Tests of the readers and writers of files, over the public calls of their crates, with values from outside.
#![tactic(auto)]

#[cfg(test)]
mod disk_check;
#[cfg(test)]
mod disk_layout;
#[cfg(test)]
mod elf_files;
#[cfg(test)]
mod function_names;
#[cfg(test)]
mod image_files;
#[cfg(test)]
mod schedules;
#[cfg(test)]
mod workloads;
