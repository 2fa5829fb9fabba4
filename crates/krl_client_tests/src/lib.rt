//! Tests of the client and of its cache, apart from them: a check of the tests does not prove both
//! again.
#![tactic(auto)]

#[cfg(test)]
mod acts;
#[cfg(test)]
mod again;
#[cfg(test)]
mod asks;
#[cfg(test)]
mod cache;
#[cfg(test)]
mod client;
#[cfg(test)]
mod joining;
#[cfg(test)]
mod locking;
#[cfg(test)]
mod replies;
#[cfg(test)]
mod shown;
#[cfg(test)]
mod taking;
#[cfg(test)]
mod writing;
