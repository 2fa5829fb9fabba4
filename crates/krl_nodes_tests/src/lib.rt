//! Tests of nodes on one thread and on several, through their public calls.
#![tactic(auto)]

#[cfg(test)]
mod acts;
#[cfg(test)]
mod gates;
#[cfg(test)]
mod nodes;
#[cfg(test)]
mod picks;
#[cfg(test)]
mod policies;
#[cfg(test)]
mod scene;
#[cfg(test)]
mod steps;
