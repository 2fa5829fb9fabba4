//! A row as numbers and flags.
ghost use Rattle.std.specs.Prelude.{◌≡◌, ◌≢◌};
ghost use Rattle.krl_lease_table.specs.Flat as flat;

use crate::row::Row;
use crate::sign::{Asked, Older, Signer};
use crate::standing::Standing;
use krl_leases::Until;

/// What is known of a client number, as numbers and flags. Any numbers make a row.
#[repr(C)]
#[derive(Clone, Copy)]
pub struct FlatRow {
    registered: u64,
    /// Until when the registered incarnation may answer, if it may.
    end: u64,
    /// The greatest incarnation of which a sign came, and which one its host knows to be over.
    signer: u64,
    over: u64,
    /// The sign that is to be answered next.
    asked: u64,
    stamp: u64,
    commits: u64,
    /// 0 if it has left or there was none, 1 if it may answer, and otherwise it has ended.
    standing: u32,
    /// 0 if no sign came. Otherwise what its host knows of older ones: 1 nothing, 2 that one is
    /// over, and otherwise somebody vouches for all.
    older: u32,
    /// 0 if no sign is to be answered.
    is_asked: u32,
    /// 0 if no lease that does not end may run.
    is_unleased: u32,
}

impl FlatRow {
    /// The row as numbers.
    pub(crate) fn of(row: Row) -> FlatRow
        ensures { flat.row_of result ≡ row }
    {
        let (standing, end) = standing_numbers(row.standing);
        let (older, signer, over) = signer_numbers(row.signer);
        let (is_asked, asked, stamp, commits) = asked_numbers(row.asked);
        FlatRow {
            registered: row.registered,
            end,
            signer,
            over,
            asked,
            stamp,
            commits,
            standing,
            older,
            is_asked,
            is_unleased: row.is_unleased as u32,
        }
    }

    /// The row of these numbers.
    pub(crate) fn row(&self) -> Row
        ensures { result ≡ flat.row_of self.now }
    {
        Row {
            registered: self.registered,
            standing: standing_at(self.standing, self.end),
            signer: signer_at(self.older, self.signer, self.over),
            asked: asked_at(self.is_asked, self.asked, self.stamp, self.commits),
            is_unleased: self.is_unleased != 0,
        }
    }
}

fn standing_numbers(standing: Standing) -> (u32, u64)
    ensures { flat.standing_at result.0 result.1 ≡ standing }
{
    match standing {
        Standing::Absent => (0, 0),
        Standing::Present(until) => (1, until.moment),
        Standing::Ended => (2, 0),
    }
}

fn standing_at(kind: u32, end: u64) -> Standing
    ensures { result ≡ flat.standing_at kind end }
{
    match kind {
        0 => Standing::Absent,
        1 => Standing::Present(Until { moment: end }),
        _ => Standing::Ended,
    }
}

fn older_numbers(older: Older) -> (u32, u64)
    ensures some { result.0 ≢ 0 }
    ensures older { flat.older_at result.0 result.1 ≡ older }
{
    match older {
        Older::Unknown => (1, 0),
        Older::IsOver(over) => (2, over),
        Older::Vouched => (3, 0),
    }
}

fn older_at(kind: u32, over: u64) -> Older
    ensures { result ≡ flat.older_at kind over }
{
    match kind {
        1 => Older::Unknown,
        2 => Older::IsOver(over),
        _ => Older::Vouched,
    }
}

fn signer_numbers(signer: Option<Signer>) -> (u32, u64, u64)
    ensures { flat.signer_at result.0 result.1 result.2 ≡ signer }
{
    match signer {
        Some(signer) => {
            let (kind, over) = older_numbers(signer.older);
            (kind, signer.incarnation, over)
        }
        None => (0, 0, 0),
    }
}

fn signer_at(kind: u32, incarnation: u64, over: u64) -> Option<Signer>
    ensures { result ≡ flat.signer_at kind incarnation over }
{
    if kind == 0 {
        return None;
    }
    Some(Signer {
        incarnation,
        older: older_at(kind, over),
    })
}

fn asked_numbers(asked: Option<Asked>) -> (u32, u64, u64, u64)
    ensures { flat.asked_at result.0 result.1 result.2 result.3 ≡ asked }
{
    match asked {
        Some(asked) => (1, asked.incarnation, asked.stamp, asked.commits),
        None => (0, 0, 0, 0),
    }
}

fn asked_at(is_asked: u32, incarnation: u64, stamp: u64, commits: u64) -> Option<Asked>
    ensures { result ≡ flat.asked_at is_asked incarnation stamp commits }
{
    if is_asked == 0 {
        return None;
    }
    Some(Asked {
        incarnation,
        stamp,
        commits,
    })
}
