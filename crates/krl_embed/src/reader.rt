//! Readers.
ghost use Rattle.std.specs.Prelude.{◌≡◌, is_some};
ghost use Rattle.std.specs.Thread.{IsSync};
ghost use Rattle.krl_client.specs.Fields.{meaning};
ghost use Rattle.krl_embed.specs.Clients as calls;
ghost use Rattle.krl_embed.specs.Endpoints.{IsUntold, Shows, OfClient};
ghost use Rattle.krl_embed.specs.Shown as shown;

use crate::client_calls;
use crate::client_shows::{self, ClientState, Held};
use crate::code::Code;
use crate::lent::Lent;
use crate::reply::Reply;
use crate::rows::Row;
use std::marker::Sync;

/// What a handle keeps, lent by C to one thread of many that only read it. One of zeros is closed.
#[repr(C)]
#[derive(Drop)]
pub struct Reader {
    is_open: bool,
    lent: Lent,
    ghost state: { is_open ≡ is_some lent.value },
}

// The value. Several threads may read it at once: no other value has a proof of this call's bound.
fn is_shared<T: Sync>(value: &T) -> &T
    ensures same { result.now ≡ value.now }
    ensures shared { IsSync T.row }
{
    value
}

/// Scans the client's cache, as `krl_client_scan` does.
#[unsafe(no_mangle)]
pub extern "C" fn krl_reader_scan(reader: &mut Reader, lo: u64, hi: u64, rows: &mut [Row]) -> Reply
    ensures unchanged { reader.new.lent.value ≡ reader.old.lent.value }
    ensures answer { Shows (IsUntold rows.old rows.new) (OfClient (IsUntold rows.old rows.new)
        (calls.Scans (record { lo = lo; hi = hi }) rows.old rows.new))
        reader.old.lent.value result }
{
    if !reader.is_open {
        return Reply::of(Code::Closed);
    }
    client_calls::scan(is_shared(reader.lent.shown()), lo, hi, rows)
}

/// What the client believes that it holds at a point, as `krl_client_held` reports it.
#[unsafe(no_mangle)]
pub extern "C" fn krl_reader_held(reader: &mut Reader, point: u64) -> Held
    ensures unchanged { reader.new.lent.value ≡ reader.old.lent.value }
    ensures answer { Shows shown.HoldsNothing
        (OfClient shown.HoldsNothing (λ k r. shown.IsHeld (meaning k) point r))
        reader.old.lent.value result }
{
    if !reader.is_open {
        return Held::blank(Code::Closed);
    }
    client_shows::held_at(is_shared(reader.lent.shown()), point)
}

/// What the client shows of itself, as `krl_client_status` reports it.
#[unsafe(no_mangle)]
pub extern "C" fn krl_reader_status(reader: &mut Reader) -> ClientState
    ensures unchanged { reader.new.lent.value ≡ reader.old.lent.value }
    ensures answer { Shows shown.IsBlank
        (OfClient shown.IsBlank (λ k r. shown.IsState (meaning k) r))
        reader.old.lent.value result }
{
    if !reader.is_open {
        return ClientState::blank(Code::Closed);
    }
    client_shows::status(is_shared(reader.lent.shown()))
}
