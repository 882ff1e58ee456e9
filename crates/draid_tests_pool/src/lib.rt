//! Tests of pools: of the top call what the scripts of `examples/` can't show, since devices fail, metaslabs are chosen
//! otherwise, scripts are made, or an area has another check record; of the words of the command line, and what `status`
//! prints of a pool. It offers nothing.

#![tactic(auto)]

#[cfg(test)]
mod checks;
#[cfg(test)]
mod harm;
#[cfg(test)]
mod import;
#[cfg(test)]
mod report;
#[cfg(test)]
mod run;
#[cfg(test)]
mod words;
