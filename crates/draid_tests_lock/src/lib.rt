//! Tests of the lock of a metaslab, and of lanes over it. It offers nothing.

#![tactic(auto)]

#[cfg(test)]
mod log;
#[cfg(test)]
mod turn;
