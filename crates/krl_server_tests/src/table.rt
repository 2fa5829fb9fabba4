//! Tests of the table. A test is a list of rows: what a table is asked, and what has to come of it.
mod asks;
mod bench;
mod orders;
mod report;
mod tests;
