//! Tests of the crates that know no device: the arithmetic of parity, blocks and their columns, layouts, chains of
//! spares, free space, logs of what was missed, and the choice of metaslabs; the repair agent and the checkpoint; scripts, with their sources and sinks, readers
//! and writers as such, their lines and the texts of replies, and the script of a workload. It offers nothing; a module is
//! named after the crate that it tests.

#![tactic(auto)]

#[cfg(test)]
mod agent;
#[cfg(test)]
mod block;
#[cfg(test)]
mod chain;
#[cfg(test)]
mod checkpoint;
#[cfg(test)]
mod choose;
#[cfg(test)]
mod dtl;
#[cfg(test)]
mod files;
#[cfg(test)]
mod gf;
#[cfg(test)]
mod layouts;
#[cfg(test)]
mod lines;
#[cfg(test)]
mod map;
#[cfg(test)]
mod metaslab;
#[cfg(test)]
mod parity;
#[cfg(test)]
mod perm;
#[cfg(test)]
mod ranges;
#[cfg(test)]
mod reply;
#[cfg(test)]
mod script;
#[cfg(test)]
mod spacemap;
#[cfg(test)]
mod spec;
#[cfg(test)]
mod workloads;
