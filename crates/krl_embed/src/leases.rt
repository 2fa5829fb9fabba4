//! Exports on a client's lease, which need no handle.
ghost use Rattle.std.specs.Prelude.{◌≡◌};
ghost use Rattle.krl_leases.specs.Clients as clients;

use krl_leases::Lease;

/// The lease of an incarnation without terms.
#[unsafe(no_mangle)]
pub extern "C" fn krl_lease_new() -> Lease
    ensures { result ≡ clients.no_terms }
{
    Lease::new()
}

/// Takes a server's terms.
#[unsafe(no_mangle)]
pub extern "C" fn krl_lease_take_terms(lease: &mut Lease, stamp: u64, length: u64, now: u64)
    ensures { lease.new ≡ clients.with_terms lease.old stamp length now }
{
    lease.take_terms(stamp, length, now);
}

/// Whether what was read from the cache may be handed over.
#[unsafe(no_mangle)]
pub extern "C" fn krl_lease_holds(lease: &Lease, now: u64) -> bool
    ensures { result ≡ clients.holds lease.now now }
{
    lease.holds(now)
}
