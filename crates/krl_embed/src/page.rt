//! A page of the entries of a server's index, as C sees it.
ghost use Rattle.std.specs.Prelude.{◌≡◌};
ghost use Rattle.krl_durable.specs.Index.{range};
ghost use Rattle.krl_embed.specs.Endpoints.{OfServer};
ghost use Rattle.krl_embed.specs.Pages.{Fills, IsNoPage, IsUnfilled, ShowsPage, rests_on};
ghost use Rattle.krl_embed.specs.Replies.{code_of};

use crate::code::Code;
use crate::endpoint::{Endpoint, Role};
use crate::reply::Reply;
use crate::rows::Row;
use krl_durable::Durable;
use krl_messages::Value;

/// The entries of a range, as many as there was room for: their number, where the others begin, and
/// on how many notes they rest.
#[repr(C)]
#[derive(Clone, Copy)]
pub struct Page {
    reply: Reply,
    next: u64,
    after: u64,
}

impl Page {
    /// No entries, by this code.
    pub(crate) fn blank(code: Code) -> Page
        ensures { IsNoPage code result }
    {
        Page {
            reply: Reply::of(code),
            next: 0,
            after: 0,
        }
    }
}

// The entries from lo on below hi go into `rows`, as far as there is room: their number, and the
// key at which the others begin, or hi if there are no others.
fn fill(durable: &Durable, lo: u64, hi: u64, rows: &mut [Row]) -> (usize, u64)
    ensures { Fills (range durable.now.index lo hi) hi rows.old rows.new result }
{
    let mut count = 0;
    let mut point = lo;
    let mut run = durable.run(lo);
    while let Some((entry, rest)) = run.split_first() {
        if entry.0 >= hi {
            return (count, hi);
        }
        if count == rows.len() {
            return (count, entry.0);
        }
        rows[count] = Row::of(entry.0, &entry.1);
        count += 1;
        point = entry.0 + 1;
        run = if rest.is_empty() {
            durable.run(point)
        } else {
            rest
        };
    }
    (count, hi)
}

/// The entries of the server's index from lo on below hi, as many as there is room for.
pub(crate) fn read_page(endpoint: &Endpoint, lo: u64, hi: u64, rows: &mut [Row]) -> Page
    ensures entries { OfServer (IsUnfilled rows.old rows.new)
        (ShowsPage lo hi rows.old rows.new) endpoint.now.role result }
    ensures after { result.after ≡ rests_on endpoint.now.notes (code_of result.reply) }
{
    match &endpoint.role {
        Role::Server(server) => {
            let (count, next) = fill(server.durable(), lo, hi, rows);
            Page {
                reply: Reply::with(Code::Done, count as u64),
                next,
                after: endpoint.notes.reported(),
            }
        }
        Role::Client(_) | Role::Left(_) => Page::blank(Code::NoServer),
    }
}
