//! Tests of lanes that run over a pool in threads. It offers nothing.

#![tactic(auto)]

#[cfg(test)]
mod gates;
#[cfg(test)]
mod lists;
#[cfg(test)]
mod meeting;
#[cfg(test)]
mod ready;
#[cfg(test)]
mod runs;
#[cfg(test)]
mod sections;
