//! Exports on the table of leases that a server's host keeps.
ghost use Rattle.std.specs.Prelude.{◌≡◌};
ghost use Rattle.krl_lease_table.specs.Flat.{table_of, is_yes};
ghost use Rattle.krl_lease_table.specs.Tables as tables;
ghost use Rattle.krl_embed.specs.Endpoints.{IsCode};
ghost use Rattle.krl_embed.specs.Leases as told;
ghost use Rattle.krl_embed.specs.Leases.{terms_of};

use crate::lease_rows::{
    GrantRow, LeaseShown, SignRow, StoredRow, TermsRow, admitted_as, done, heard_as, number, shown,
    successor,
};
use crate::reply::Reply;
use krl_lease_table::LeaseTable;

/// That of a server with these terms that is about to start.
#[unsafe(no_mangle)]
pub extern "C" fn krl_lease_table_new(terms: &TermsRow, longest: u64) -> LeaseTable
    ensures { table_of result ≡ tables.started (terms_of terms.now) longest }
{
    LeaseTable::new(terms.terms(), longest)
}

/// Takes in what the store has of a client.
#[unsafe(no_mangle)]
pub extern "C" fn krl_lease_table_store_has(
    table: &mut LeaseTable,
    client: u64,
    stored: &StoredRow,
) -> Reply
    ensures answer { IsCode (told.done (tables.store_answer (table_of table.old) client)) result }
    ensures left { table_of table.new ≡ tables.with_stored (table_of table.old) client
        stored.now.incarnation (is_yes stored.now.has_left) (is_yes stored.now.is_unleased) }
{
    let (has_left, is_unleased) = (stored.has_left != 0, stored.is_unleased != 0);
    let answer = table.store_has(client, stored.incarnation, has_left, is_unleased);
    Reply::of(done(answer))
}

/// A commit begins: its number is the detail.
#[unsafe(no_mangle)]
pub extern "C" fn krl_lease_table_commit(table: &mut LeaseTable) -> Reply
    ensures answer { told.Numbers (tables.next_commit (table_of table.old)) result }
    ensures left { table_of table.new ≡ tables.committing (table_of table.old) }
{
    number(table.commit())
}

/// The commit of this number has been made, and all before it.
#[unsafe(no_mangle)]
pub extern "C" fn krl_lease_table_committed(table: &mut LeaseTable, commit: u64) -> Reply
    ensures answer { IsCode (told.done (tables.commit_answer (table_of table.old) commit)) result }
    ensures left { table_of table.new ≡ tables.committed (table_of table.old) commit }
{
    Reply::of(done(table.committed(commit)))
}

/// The server begins.
#[unsafe(no_mangle)]
pub extern "C" fn krl_lease_table_open(table: &mut LeaseTable, now: u64) -> Reply
    ensures answer { IsCode (told.done (tables.open_answer (table_of table.old))) result }
    ensures left { table_of table.new ≡ tables.opened (table_of table.old) now }
{
    Reply::of(done(table.open(now)))
}

/// Takes a client's sign.
#[unsafe(no_mangle)]
pub extern "C" fn krl_lease_table_sign(
    table: &mut LeaseTable,
    client: u64,
    sign: &SignRow,
    now: u64,
) -> Reply
    ensures answer { IsCode (told.heard_as
        (tables.sign_answer (table_of table.old) client (told.sign_of sign.now))) result }
    ensures left { table_of table.new
        ≡ tables.signed (table_of table.old) client (told.sign_of sign.now) now }
{
    Reply::of(heard_as(table.sign(client, sign.sign(), now)))
}

/// The terms that may leave to a client, once.
#[unsafe(no_mangle)]
pub extern "C" fn krl_lease_table_take_terms(table: &mut LeaseTable, client: u64) -> GrantRow
    ensures answer { told.Grants (tables.terms_answer (table_of table.old) client) result }
    ensures left { table_of table.new ≡ tables.granted (table_of table.old) client }
{
    GrantRow::of(table.take_terms(client))
}

/// Whether a Hello of this incarnation may be handed to the server now.
#[unsafe(no_mangle)]
pub extern "C" fn krl_lease_table_admit(
    table: &mut LeaseTable,
    client: u64,
    incarnation: u64,
    now: u64,
) -> Reply
    ensures answer { IsCode (told.admitted_as
        (tables.admit_answer (table_of table.old) client incarnation now)) result }
    ensures left { table_of table.new
        ≡ tables.admitted (table_of table.old) client incarnation now }
{
    Reply::of(admitted_as(table.admit(client, incarnation, now)))
}

/// The server has registered an incarnation.
#[unsafe(no_mangle)]
pub extern "C" fn krl_lease_table_register(
    table: &mut LeaseTable,
    client: u64,
    incarnation: u64,
    now: u64,
) -> Reply
    ensures answer { IsCode (told.done
        (tables.register_answer (table_of table.old) client incarnation)) result }
    ensures left { table_of table.new
        ≡ tables.registered (table_of table.old) client incarnation now }
{
    Reply::of(done(table.register(client, incarnation, now)))
}

/// The client has left.
#[unsafe(no_mangle)]
pub extern "C" fn krl_lease_table_leave(table: &mut LeaseTable, client: u64) -> Reply
    ensures answer { IsCode (told.done (tables.leave_answer (table_of table.old) client)) result }
    ensures left { table_of table.new ≡ tables.left (table_of table.old) client }
{
    Reply::of(done(table.leave(client)))
}

/// The incarnation by whose Hello and Bye the client is to be evicted.
#[unsafe(no_mangle)]
pub extern "C" fn krl_lease_table_evict(table: &mut LeaseTable, client: u64, now: u64) -> Reply
    ensures answer { told.Succeeds (tables.evict_answer (table_of table.old) client now) result }
    ensures left { table_of table.new ≡ tables.evicting (table_of table.old) client now }
{
    successor(table.evict(client, now))
}

/// The server has registered an incarnation that its own host made.
#[unsafe(no_mangle)]
pub extern "C" fn krl_lease_table_succeed(
    table: &mut LeaseTable,
    client: u64,
    incarnation: u64,
) -> Reply
    ensures answer { IsCode (told.done
        (tables.register_answer (table_of table.old) client incarnation)) result }
    ensures left { table_of table.new ≡ tables.evicted (table_of table.old) client incarnation }
{
    Reply::of(done(table.succeed(client, incarnation)))
}

/// What has to be stored may become less.
#[unsafe(no_mangle)]
pub extern "C" fn krl_lease_table_revise(table: &mut LeaseTable, now: u64) -> Reply
    ensures answer { IsCode (told.done (tables.revise_answer (table_of table.old))) result }
    ensures left { table_of table.new ≡ tables.revised (table_of table.old) now }
{
    Reply::of(done(table.revise(now)))
}

/// What is known of a client.
#[unsafe(no_mangle)]
pub extern "C" fn krl_lease_table_shows(table: &LeaseTable, client: u64) -> LeaseShown
    ensures { told.Shows (table_of table.now).longest (tables.row_of (table_of table.now) client)
        result }
{
    shown(table.longest(), table.shows(client))
}
