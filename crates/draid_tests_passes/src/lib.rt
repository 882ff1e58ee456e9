//! Tests of rebuilds, scrubs, rebalances and repairs that are stopped, or of which a device call fails, and of commands beside a
//! checkpoint that are stopped. It offers nothing.

#![tactic(auto)]

#[cfg(test)]
mod agents;
#[cfg(test)]
mod checkpoints;
#[cfg(test)]
mod rebalances;
#[cfg(test)]
mod rebuilds;
#[cfg(test)]
mod scrubs;
