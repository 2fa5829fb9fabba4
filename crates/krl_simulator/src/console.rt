//! Standard error in memory.
use std::alloc::Global;
use std::cell::RefCell;
use std::fmt::Display;
use std::io;
use std::io::{ErrorKind, Write};

/// Keeps what is reported. No clause says what a cell has: so nothing is promised of it.
#[derive(Drop)]
pub(crate) struct Console {
    reports: RefCell<Vec<u8>>,
}

impl Console {
    pub(crate) fn new(alloc: Global) -> Console {
        Console {
            reports: RefCell::new(Vec::new(alloc)),
        }
    }

    /// What was reported.
    pub(crate) fn into_bytes(self) -> Vec<u8> {
        self.reports.into_inner()
    }

    fn put<D: Display + Drop>(&self, value: D, end: &str) -> io::Result<()> {
        match self.reports.try_borrow_mut() {
            Ok(mut reports) => write!(*reports, "{value}{end}"),
            Err(_) => Err(io::Error::from(ErrorKind::Other)),
        }
    }
}

impl Eprint for Console {
    fn eprint<D: Display + Drop>(&self, value: D) -> io::Result<()> {
        self.put(value, "")
    }

    fn eprintln<D: Display + Drop>(&self, value: D) -> io::Result<()> {
        self.put(value, "\n")
    }
}
