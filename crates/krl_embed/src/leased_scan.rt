//! Exports by which a lease decides whether the answer of a scan may be handed over.
ghost use Rattle.std.specs.Prelude.{◌≡◌};
ghost use Rattle.krl_embed.specs.Clients as calls;
ghost use Rattle.krl_embed.specs.Endpoints.{IsUntold, Shows, OfClient};
ghost use Rattle.krl_embed.specs.Leases.{AnswersByLease};

use crate::code::Code;
use crate::reader::{Reader, krl_reader_scan};
use crate::reply::Reply;
use crate::rows::Row;
use krl_leases::Lease;

/// What a scan has answered, while it waits until a lease is asked.
#[repr(C)]
#[derive(Clone, Copy)]
pub struct LeasedScan {
    found: Reply,
    waits: u32,
}

/// Scans the client's cache, as `krl_reader_scan` does, and holds the answer back.
#[unsafe(no_mangle)]
pub extern "C" fn krl_reader_scan_leased(
    reader: &mut Reader,
    lo: u64,
    hi: u64,
    rows: &mut [Row],
) -> LeasedScan
    ensures unchanged { reader.new.lent.value ≡ reader.old.lent.value }
    ensures found { Shows (IsUntold rows.old rows.new) (OfClient (IsUntold rows.old rows.new)
        (calls.Scans (record { lo = lo; hi = hi }) rows.old rows.new))
        reader.old.lent.value result.found }
    ensures waits { result.waits ≡ 1 }
{
    LeasedScan {
        found: krl_reader_scan(reader, lo, hi, rows),
        waits: 1,
    }
}

/// What the scan has answered, if the lease holds at this moment. It is answered once.
#[unsafe(no_mangle)]
pub extern "C" fn krl_leased_scan_answer(scan: &mut LeasedScan, lease: &Lease, now: u64) -> Reply
    ensures answer { AnswersByLease scan.old lease.now now result }
    ensures answered { scan.new ≡ record scan.old { waits = 0 } }
{
    let is_answered = scan.waits == 0;
    scan.waits = 0;
    if is_answered {
        return Reply::of(Code::Closed);
    }
    if !lease.holds(now) {
        return Reply::of(Code::LeaseEnded);
    }
    scan.found
}
