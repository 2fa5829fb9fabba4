//! What C hands to a table of leases, and what it is answered.
ghost use Rattle.std.specs.Prelude.{◌≡◌};
ghost use Rattle.krl_embed.specs.Leases as told;
ghost use Rattle.krl_embed.specs.Leases.{older_of, sign_of, terms_of};

use crate::code::Code;
use crate::reply::Reply;
use krl_lease_table::{Grant, Heard, Older, Refused, Row, Sign, Signer, Standing};
use krl_leases::Terms;

/// What a server grants.
#[repr(C)]
#[derive(Clone, Copy)]
pub struct TermsRow {
    length: u64,
    drift: u32,
}

impl TermsRow {
    /// The terms.
    pub(crate) fn terms(&self) -> Terms
        ensures { result ≡ terms_of self.now }
    {
        Terms {
            length: self.length,
            drift: self.drift,
        }
    }
}

/// A client's sign.
#[repr(C)]
#[derive(Clone, Copy)]
pub struct SignRow {
    incarnation: u64,
    stamp: u64,
    length: u64,
    over: u64,
    is_vouched: u32,
}

impl SignRow {
    fn older(&self) -> Older
        ensures { result ≡ older_of self.now }
    {
        if self.is_vouched != 0 {
            return Older::Vouched;
        }
        match self.over {
            0 => Older::Unknown,
            over => Older::IsOver(over),
        }
    }

    /// The sign.
    pub(crate) fn sign(&self) -> Sign
        ensures { result ≡ sign_of self.now }
    {
        Sign {
            incarnation: self.incarnation,
            stamp: self.stamp,
            said: self.length,
            older: self.older(),
        }
    }
}

/// What a store has of a client, as a server starts.
#[repr(C)]
#[derive(Clone, Copy)]
pub struct StoredRow {
    pub(crate) incarnation: u64,
    pub(crate) has_left: u32,
    pub(crate) is_unleased: u32,
}

/// The terms that may leave to a client, if there are any.
#[repr(C)]
#[derive(Clone, Copy)]
pub struct GrantRow {
    reply: Reply,
    incarnation: u64,
    stamp: u64,
    length: u64,
    is_there: u32,
}

impl GrantRow {
    fn blank(code: Code) -> GrantRow
        ensures { told.IsNoGrant code result }
    {
        GrantRow {
            reply: Reply::of(code),
            incarnation: 0,
            stamp: 0,
            length: 0,
            is_there: 0,
        }
    }

    /// What `take_terms` answers.
    pub(crate) fn of(answer: Result<Option<Grant>, Refused>) -> GrantRow
        ensures { told.Grants answer result }
    {
        match answer {
            Ok(Some(grant)) => GrantRow {
                reply: Reply::of(Code::Done),
                incarnation: grant.incarnation,
                stamp: grant.stamp,
                length: grant.length,
                is_there: 1,
            },
            Ok(None) => GrantRow::blank(Code::Done),
            Err(refused) => GrantRow::blank(refusal(refused)),
        }
    }
}

/// What a table shows of a client.
#[repr(C)]
#[derive(Clone, Copy)]
pub struct LeaseShown {
    reply: Reply,
    registered: u64,
    end: u64,
    signer: u64,
    longest: u64,
    is_present: u32,
    is_unleased: u32,
}

impl LeaseShown {
    fn of(longest: u64, row: Row) -> LeaseShown
        ensures { told.IsShown longest row result }
    {
        LeaseShown {
            reply: Reply::of(Code::Done),
            registered: row.registered,
            end: end_of(row.standing),
            signer: signer_of(row.signer),
            longest,
            is_present: row.standing.may_answer() as u32,
            is_unleased: row.is_unleased as u32,
        }
    }

    fn blank(code: Code) -> LeaseShown
        ensures { told.IsNotShown code result }
    {
        LeaseShown {
            reply: Reply::of(code),
            registered: 0,
            end: 0,
            signer: 0,
            longest: 0,
            is_present: 0,
            is_unleased: 0,
        }
    }
}

/// What a table shows of a client, with its longest lease.
pub(crate) fn shown(longest: u64, answer: Result<Row, Refused>) -> LeaseShown
    ensures { told.Shows longest answer result }
{
    match answer {
        Ok(row) => LeaseShown::of(longest, row),
        Err(refused) => LeaseShown::blank(refusal(refused)),
    }
}

fn end_of(standing: Standing) -> u64
    ensures { result ≡ told.end_of standing }
{
    match standing {
        Standing::Present(until) => until.moment,
        Standing::Absent => 0,
        Standing::Ended => 0,
    }
}

fn signer_of(signer: Option<Signer>) -> u64
    ensures { result ≡ told.signer_of signer }
{
    match signer {
        Some(signer) => signer.incarnation,
        None => 0,
    }
}

/// The code of a refusal.
pub(crate) fn refusal(refused: Refused) -> Code
    ensures { result ≡ told.refusal refused }
{
    match refused {
        Refused::BadClient => Code::BadClient,
        Refused::NotOpen => Code::Closed,
        Refused::Begun => Code::OpenAlready,
        Refused::NoCommit => Code::NotTold,
        Refused::Spent => Code::Spent,
        Refused::NotGreater => Code::BadIncarnation,
        Refused::StillAnswers => Code::StillAnswers,
    }
}

/// Done, or why not.
pub(crate) fn done(answer: Result<(), Refused>) -> Code
    ensures { result ≡ told.done answer }
{
    match answer {
        Ok(()) => Code::Done,
        Err(refused) => refusal(refused),
    }
}

/// What becomes of a sign.
pub(crate) fn heard_as(answer: Result<Heard, Refused>) -> Code
    ensures { result ≡ told.heard_as answer }
{
    match answer {
        Ok(Heard::Waits) => Code::Done,
        Ok(Heard::HasEnded) => Code::Gone,
        Err(refused) => refusal(refused),
    }
}

/// Whether a Hello is admitted.
pub(crate) fn admitted_as(answer: Result<bool, Refused>) -> Code
    ensures { result ≡ told.admitted_as answer }
{
    match answer {
        Ok(true) => Code::Done,
        Ok(false) => Code::StillAnswers,
        Err(refused) => refusal(refused),
    }
}

/// A number is the detail.
pub(crate) fn number(answer: Result<u64, Refused>) -> Reply
    ensures { told.Numbers answer result }
{
    match answer {
        Ok(number) => Reply::with(Code::Done, number),
        Err(refused) => Reply::of(refusal(refused)),
    }
}

/// The detail is the incarnation by which a client is evicted, or 0.
pub(crate) fn successor(answer: Result<Option<u64>, Refused>) -> Reply
    ensures { told.Succeeds answer result }
{
    match answer {
        Ok(Some(incarnation)) => Reply::with(Code::Done, incarnation),
        Ok(None) => Reply::of(Code::Done),
        Err(refused) => Reply::of(refusal(refused)),
    }
}
