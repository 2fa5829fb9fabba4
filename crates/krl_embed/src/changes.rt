//! What a server's step changed, as C sees it.
ghost use Rattle.std.specs.Prelude.{◌≡◌, not, nat_eq};
ghost use Rattle.krl_embed.specs.Changes as changes;

use crate::records::outcome_number;
use crate::rows::Row;
use krl_durable::Change;
use krl_messages::WriteOp;

/// What a server's step changed of what survives. Fields that the kind does not name are 0.
#[repr(C)]
#[derive(Clone, Copy)]
pub struct ChangeRow {
    /// 0: nothing; 1: a client registered; 2: it left; 3: a write was judged.
    kind: u32,
    /// Of a judged write: how it was judged.
    outcome: u32,
    client: u64,
    /// Of a client that registered its incarnation, of a judged write its number.
    number: u64,
    /// Of a judged write: 0 an insert, 1 a put, 2 a delete.
    write: u64,
    /// Of a judged write: its key, and the value of an insert or a put.
    row: Row,
}

// The kind of a write.
fn write_number(op: &WriteOp) -> u64
    ensures { result ≡ changes.write_number op.now }
{
    match op {
        WriteOp::Insert { .. } => 0,
        WriteOp::Put { .. } => 1,
        WriteOp::Delete { .. } => 2,
    }
}

// The key of a write, and its value.
fn write_row(op: &WriteOp) -> Row
    ensures { result ≡ changes.write_row op.now }
{
    match op {
        WriteOp::Insert { key, value } | WriteOp::Put { key, value } => Row::of(*key, value),
        WriteOp::Delete { key } => Row::of_key(*key),
    }
}

impl ChangeRow {
    /// Something has changed.
    pub(crate) fn is_change(&self) -> bool
        ensures { result ≡ not (nat_eq self.now.kind 0) }
    {
        self.kind != 0
    }

    /// Nothing has changed.
    pub(crate) fn none() -> ChangeRow
        ensures { result ≡ changes.unchanged }
    {
        ChangeRow {
            kind: 0,
            outcome: 0,
            client: 0,
            number: 0,
            write: 0,
            row: Row::blank(),
        }
    }

    /// The row of a change.
    pub(crate) fn of(change: &Option<Change>) -> ChangeRow
        ensures { result ≡ changes.change_row change.now }
    {
        match change {
            None => ChangeRow::none(),
            Some(
                Change::Registered {
                    client,
                    incarnation,
                },
            ) => ChangeRow {
                kind: 1,
                client: *client,
                number: *incarnation,
                ..ChangeRow::none()
            },
            Some(Change::Left { client }) => ChangeRow {
                kind: 2,
                client: *client,
                ..ChangeRow::none()
            },
            Some(
                Change::Judged {
                    client,
                    number,
                    op,
                    outcome,
                },
            ) => ChangeRow {
                kind: 3,
                outcome: outcome_number(Some(*outcome)),
                client: *client,
                number: *number,
                write: write_number(op),
                row: write_row(op),
            },
        }
    }
}
