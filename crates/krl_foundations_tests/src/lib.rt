//! Tests of modes, values, messages, waiting lists, maps in blocks and what survives a restart,
//! of leases and their table, and of messages as bytes, through their public calls.
#![tactic(auto)]

#[cfg(test)]
mod again;
#[cfg(test)]
mod blocks;
#[cfg(test)]
mod durable;
#[cfg(test)]
mod lease_table;
#[cfg(test)]
mod leases;
#[cfg(test)]
mod messages;
#[cfg(test)]
mod migration;
#[cfg(test)]
mod modes;
#[cfg(test)]
mod queue;
#[cfg(test)]
mod values;
#[cfg(test)]
mod wire;
