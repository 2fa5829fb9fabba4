//! Tests of the server and its table, apart from them so that their own proofs are not made twice.
#![tactic(auto)]

#[cfg(test)]
mod acts;
#[cfg(test)]
mod again;
#[cfg(test)]
mod changes;
#[cfg(test)]
mod exchange;
#[cfg(test)]
mod long_reports;
#[cfg(test)]
mod named;
#[cfg(test)]
mod ranges;
#[cfg(test)]
mod recovering;
#[cfg(test)]
mod requests;
#[cfg(test)]
mod runs;
#[cfg(test)]
mod seizing;
#[cfg(test)]
mod shows;
#[cfg(test)]
mod starts;
#[cfg(test)]
mod strangers;
#[cfg(test)]
mod table;
#[cfg(test)]
mod tests;
#[cfg(test)]
mod told;
#[cfg(test)]
mod writes;
