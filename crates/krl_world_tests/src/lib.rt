//! Tests of worlds and scripts, through their public calls: what no stored script can hold.
#![tactic(auto)]

#[cfg(test)]
mod again;
#[cfg(test)]
mod interrupted;
#[cfg(test)]
mod migration;
#[cfg(test)]
mod random;
#[cfg(test)]
mod refused;
#[cfg(test)]
mod rest;
#[cfg(test)]
mod scripts;
#[cfg(test)]
mod worlds;
