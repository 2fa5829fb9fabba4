//! Reports as long as an index, in orders in which no client's cache reports. A server that read all
//! of one for each slot would take some hundred times as long as for one in order.
use crate::starts::started;
use krl_durable::Durable;
use krl_messages::{Items, Pieces, RangePiece, RangePieces, ToServer, ToServerBody, Value};
use krl_modes::{RangePart, Span, TOP};
use krl_server::{Phase, Server};
use std::alloc::{AllocError, Global};
use std::time::{CpuClock, Duration};

// The entries, at 1, 3, 5 and so on, and the ranges of a report.
pub const ENTRIES: u64 = 8192;

// How often the time of a report in order one in another order may take.
const TIMES: u128 = 30;

// In which order the ranges come.
#[derive(Clone, Copy)]
pub enum Order {
    // The gap before each entry, the first one first: as a client's cache reports.
    Ascending,
    // The last one first.
    Descending,
    // The points from each gap on, as far as they go.
    Nested,
}

fn entries(alloc: Global) -> Result<Vec<(u64, Value)>, AllocError> {
    let mut entries = Vec::new(alloc);
    for n in 0..ENTRIES {
        entries.push((2 * n + 1, Value::from_u64(n)))?;
    }
    Ok(entries)
}

fn ranges(alloc: Global, order: Order) -> Result<RangePieces, AllocError> {
    let mut ranges = Vec::new(alloc);
    for n in 0..ENTRIES {
        let span = match order {
            Order::Ascending => Span::new(2 * n, 2 * n + 2),
            Order::Descending => Span::new(2 * (ENTRIES - 1 - n), 2 * (ENTRIES - n)),
            Order::Nested => Span::new(2 * n, TOP),
        };
        if let Ok(span) = span {
            let part = RangePart::S;
            ranges.push(RangePiece { span, part })?;
        }
    }
    Ok(Items::from(ranges))
}

fn says(body: ToServerBody) -> ToServer {
    ToServer {
        client: 0,
        incarnation: 1,
        body,
    }
}

// A server on these entries that waits for the report of its one client.
fn recovering(alloc: Global) -> Option<Server> {
    let entries = entries(alloc).ok()?;
    let mut server = started(alloc, Durable::new(alloc, &entries).ok()?)?;
    let _out = server.step(alloc, &says(ToServerBody::Hello)).ok()?;
    started(alloc, server.crash())
}

// How long the server takes for the report, and at how many slots the client holds something then;
// None if it refuses a call or still waits.
fn taken(rt: &(impl CpuClock + AllocGlobal), order: Order) -> Option<(Duration, u64)> {
    let alloc = rt.alloc();
    let mut server = recovering(alloc)?;
    let epoch = server.durable().epoch();
    let pieces = Pieces {
        ranges: ranges(alloc, order).ok()?,
        keys: Items::from(Vec::new(alloc)),
    };
    let report = says(ToServerBody::Report { epoch, pieces });
    let start = rt.thread_cpu_time().ok()?;
    let _out = server.step(alloc, &report).ok()?;
    let end = rt.thread_cpu_time().ok()?;
    match server.phase() {
        Phase::Serving => Some((end.saturating_sub(start), server.held_slots(0))),
        Phase::Recovering => None,
    }
}

// Whether the client holds something at so many slots once it has reported in this order, and the
// report took no more than a few times what one in order takes.
pub fn is_taken_in_time(rt: &(impl CpuClock + AllocGlobal), order: Order, expected: u64) -> bool {
    let Some((least, _)) = taken(rt, Order::Ascending) else {
        return false;
    };
    let Some((took, held)) = taken(rt, order) else {
        return false;
    };
    held == expected && took.as_nanos() <= least.as_nanos().saturating_mul(TIMES)
}
