//! Tests of the crates of devices, and of what is written to them: how devices fail, the racks of sectors, the areas of bytes,
//! the shelf that keeps both between two runs, and the records and the uberblock that stand on them. It offers nothing. A
//! module is named after the crate that it tests.

#![tactic(auto)]

#[cfg(test)]
mod area;
#[cfg(test)]
mod checks;
#[cfg(test)]
mod faults;
#[cfg(test)]
mod fields;
#[cfg(test)]
mod files;
#[cfg(test)]
mod rack;
#[cfg(test)]
mod record;
#[cfg(test)]
mod shelf;
#[cfg(test)]
mod uber;
