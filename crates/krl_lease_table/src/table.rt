//! The leases of a server's clients.
ghost use Rattle.std.specs.Prelude.{◌≡◌};
ghost use Rattle.krl_lease_table.specs.Flat.{table_of};
ghost use Rattle.krl_lease_table.specs.Tables as tables;

use crate::each::{blank_rows, open_rows, revise_rows};
use crate::flat::FlatRow;
use crate::refused::Refused;
use crate::row::Row;
use crate::sign::{Grant, Heard, Sign};
use krl_leases::{FOR_EVER, Terms, Until};
use krl_modes::MAX_CLIENTS;

/// What a server's host knows of its clients' leases: a row for each client number. It has numbers
/// and flags only, so that a host in C can keep it. Any numbers make a table.
#[repr(C)]
#[derive(Clone, Copy)]
pub struct LeaseTable {
    /// What the server grants.
    length: u64,
    /// No lease that ends and may still run is longer.
    longest: u64,
    /// From when on no lease of an older server runs, unless it does not end.
    old_end: u64,
    /// How many commits have begun, and how many of them have been made.
    begun: u64,
    made: u64,
    drift: u32,
    /// 0 until the server has begun.
    is_open: u32,
    rows: [FlatRow; MAX_CLIENTS],
}

impl LeaseTable {
    /// That of a server with these terms that is about to start. The store's longest lease is
    /// `longest`, and nothing is known of its clients.
    pub fn new(terms: Terms, longest: u64) -> LeaseTable
        ensures { table_of result ≡ tables.started terms longest }
    {
        let kept = Row::blank().kept(longest).start(terms);
        LeaseTable {
            length: terms.length,
            longest: kept.longest,
            old_end: FOR_EVER,
            begun: 0,
            made: 0,
            drift: terms.drift,
            is_open: 0,
            rows: blank_rows(),
        }
    }

    // What the server grants.
    fn terms(&self) -> Terms
        ensures { result ≡ (table_of self.now).terms }
    {
        Terms {
            length: self.length,
            drift: self.drift,
        }
    }

    // Whether the server has begun.
    fn is_open(&self) -> bool
        ensures { result ≡ (table_of self.now).is_open }
    {
        self.is_open != 0
    }

    // From when on no lease of an older server runs, unless it does not end.
    fn old_end(&self) -> Until
        ensures { result ≡ (table_of self.now).old_end }
    {
        Until {
            moment: self.old_end,
        }
    }

    // The row of a client.
    fn row(&self, client: u64) -> Result<Row, Refused>
        ensures { result ≡ tables.row_of (table_of self.now) client }
    {
        match self.rows.get(client as usize) {
            Some(row) => Ok(row.row()),
            None => Err(Refused::BadClient),
        }
    }

    // The row of a client, if the server has begun.
    fn open_row(&self, client: u64) -> Result<Row, Refused>
        ensures { result ≡ tables.open_row (table_of self.now) client }
    {
        if !self.is_open() {
            return Err(Refused::NotOpen);
        }
        self.row(client)
    }

    // The client's row, if it is one's.
    fn set(&mut self, client: u64, row: Row)
        ensures { table_of self.new ≡ tables.with_row (table_of self.old) client row }
    {
        if client < MAX_CLIENTS as u64 {
            self.rows[client as usize] = FlatRow::of(row);
        }
    }

    /// Takes in what the store has of a client: the incarnation that was registered last, or 0,
    /// whether it has left, and whether a lease that does not end may run.
    ///
    /// # Errors
    ///
    /// `Begun` after the first commit has begun, `BadClient`.
    pub fn store_has(
        &mut self,
        client: u64,
        incarnation: u64,
        has_left: bool,
        is_unleased: bool,
    ) -> Result<(), Refused>
        ensures answer { result ≡ tables.store_answer (table_of self.old) client }
        ensures left { table_of self.new ≡ tables.with_stored (table_of self.old) client incarnation
            has_left is_unleased }
    {
        if self.begun > 0 {
            return Err(Refused::Begun);
        }
        match self.row(client) {
            Err(refused) => Err(refused),
            Ok(_) => {
                let row = Row::stored(incarnation, has_left, is_unleased);
                let kept = row.kept(self.longest).start(self.terms());
                self.set(client, row.with_kept(kept));
                Ok(())
            }
        }
    }

    /// No lease that ends and may still run is longer. The store has to have this number, and of
    /// each client whether a lease that does not end may run, as `shows` returns it.
    pub fn longest(&self) -> u64
        ensures { result ≡ (table_of self.now).longest }
    {
        self.longest
    }

    /// A commit begins, which has what the store has to have of leases, and whatever else was to be
    /// stored before. Returns its number.
    ///
    /// # Errors
    ///
    /// `Spent` after 2^64 - 1 of them.
    pub fn commit(&mut self) -> Result<u64, Refused>
        ensures answer { result ≡ tables.next_commit (table_of self.old) }
        ensures left { table_of self.new ≡ tables.committing (table_of self.old) }
    {
        if self.begun == u64::MAX {
            return Err(Refused::Spent);
        }
        self.begun += 1;
        Ok(self.begun)
    }

    /// The commit of this number has been made, and all before it: the store was still this
    /// server's.
    ///
    /// # Errors
    ///
    /// `NoCommit` if none of this number has begun.
    pub fn committed(&mut self, commit: u64) -> Result<(), Refused>
        ensures answer { result ≡ tables.commit_answer (table_of self.old) commit }
        ensures left { table_of self.new ≡ tables.committed (table_of self.old) commit }
    {
        if self.begun < commit {
            return Err(Refused::NoCommit);
        }
        self.made = self.made.max(commit);
        Ok(())
    }

    /// The server begins: its first commit has been made, and `now` is read after that.
    ///
    /// # Errors
    ///
    /// `NotOpen` if no commit has been made, `Begun` if the server has begun.
    pub fn open(&mut self, now: u64) -> Result<(), Refused>
        ensures answer { result ≡ tables.open_answer (table_of self.old) }
        ensures left { table_of self.new ≡ tables.opened (table_of self.old) now }
    {
        if self.is_open() {
            return Err(Refused::Begun);
        }
        if self.made == 0 {
            return Err(Refused::NotOpen);
        }
        let terms = self.terms();
        self.old_end = Row::blank().kept(self.longest).old_end(terms, now).moment;
        open_rows(&mut self.rows, self.longest, terms, now);
        self.is_open = 1;
        Ok(())
    }

    /// Takes a client's sign. `now` is read after it.
    ///
    /// # Errors
    ///
    /// `NotOpen`, `BadClient`.
    pub fn sign(&mut self, client: u64, sign: Sign, now: u64) -> Result<Heard, Refused>
        ensures answer { result ≡ tables.sign_answer (table_of self.old) client sign }
        ensures left { table_of self.new ≡ tables.signed (table_of self.old) client sign now }
    {
        match self.open_row(client) {
            Err(refused) => Err(refused),
            Ok(row) => {
                self.set(client, row.signed(self.terms(), sign, self.begun, now));
                Ok(heard(row, sign))
            }
        }
    }

    /// The terms that may leave to a client, if there are any. They are returned once.
    ///
    /// # Errors
    ///
    /// `NotOpen`, `BadClient`.
    pub fn take_terms(&mut self, client: u64) -> Result<Option<Grant>, Refused>
        ensures answer { result ≡ tables.terms_answer (table_of self.old) client }
        ensures left { table_of self.new ≡ tables.granted (table_of self.old) client }
    {
        match self.open_row(client) {
            Err(refused) => Err(refused),
            Ok(row) => {
                self.set(client, row.granted(self.made));
                Ok(row.grant(self.terms(), self.made))
            }
        }
    }

    /// Whether a Hello of this incarnation may be handed to the server now. If it is a greater one
    /// than the registered, that answers nothing from then on. A Hello that has to wait is dropped:
    /// it is sent again.
    ///
    /// # Errors
    ///
    /// `NotOpen`, `BadClient`.
    pub fn admit(&mut self, client: u64, incarnation: u64, now: u64) -> Result<bool, Refused>
        ensures answer { result ≡ tables.admit_answer (table_of self.old) client incarnation now }
        ensures left { table_of self.new ≡ tables.admitted (table_of self.old) client
            incarnation now }
    {
        match self.open_row(client) {
            Err(refused) => Err(refused),
            Ok(row) => {
                self.set(client, row.admitted(self.terms(), incarnation, now));
                Ok(row.admits(self.terms(), incarnation, now))
            }
        }
    }

    // The row of a client of which a greater incarnation may be registered.
    fn free_row(&self, client: u64, incarnation: u64) -> Result<Row, Refused>
        ensures { result ≡ tables.free_row (table_of self.now) client incarnation }
    {
        match self.open_row(client) {
            Err(refused) => Err(refused),
            Ok(row) if incarnation <= row.registered => Err(Refused::NotGreater),
            Ok(row) if row.standing.may_answer() => Err(Refused::StillAnswers),
            Ok(row) => Ok(row),
        }
    }

    /// The server has registered an incarnation. What the store has to have of leases has to be
    /// stored with that or before it.
    ///
    /// # Errors
    ///
    /// `NotOpen`, `BadClient`, `NotGreater`, `StillAnswers`, in this order.
    pub fn register(&mut self, client: u64, incarnation: u64, now: u64) -> Result<(), Refused>
        ensures answer { result ≡ tables.register_answer (table_of self.old) client incarnation }
        ensures left { table_of self.new ≡ tables.registered (table_of self.old) client
            incarnation now }
    {
        match self.free_row(client, incarnation) {
            Err(refused) => Err(refused),
            Ok(row) => {
                self.set(client, row.registered(self.terms(), incarnation, now));
                Ok(())
            }
        }
    }

    /// The client has left: the server has judged its Bye.
    ///
    /// # Errors
    ///
    /// `NotOpen`, `BadClient`.
    pub fn leave(&mut self, client: u64) -> Result<(), Refused>
        ensures answer { result ≡ tables.leave_answer (table_of self.old) client }
        ensures left { table_of self.new ≡ tables.left (table_of self.old) client }
    {
        match self.open_row(client) {
            Err(refused) => Err(refused),
            Ok(row) => {
                self.set(client, row.left());
                Ok(())
            }
        }
    }

    /// The incarnation by whose Hello and Bye the client is to be evicted, if it may be. The client
    /// answers nothing from then on, and this is returned until it has left.
    ///
    /// # Errors
    ///
    /// `NotOpen`, `BadClient`.
    pub fn evict(&mut self, client: u64, now: u64) -> Result<Option<u64>, Refused>
        ensures answer { result ≡ tables.evict_answer (table_of self.old) client now }
        ensures left { table_of self.new ≡ tables.evicting (table_of self.old) client now }
    {
        match self.open_row(client) {
            Err(refused) => Err(refused),
            Ok(row) => {
                self.set(client, row.evicting(now));
                Ok(row.successor(now))
            }
        }
    }

    /// The server has registered an incarnation that its own host made, to evict the client. It
    /// answers nothing.
    ///
    /// # Errors
    ///
    /// `NotOpen`, `BadClient`, `NotGreater`, `StillAnswers`, in this order.
    pub fn succeed(&mut self, client: u64, successor: u64) -> Result<(), Refused>
        ensures answer { result ≡ tables.register_answer (table_of self.old) client successor }
        ensures left { table_of self.new ≡ tables.evicted (table_of self.old) client successor }
    {
        match self.free_row(client, successor) {
            Err(refused) => Err(refused),
            Ok(row) => {
                self.set(client, row.evicted(successor));
                Ok(())
            }
        }
    }

    /// What the store has to have may become less: once no older server's lease runs, the longest
    /// is what this one grants. It may be stored later.
    ///
    /// # Errors
    ///
    /// `NotOpen`.
    pub fn revise(&mut self, now: u64) -> Result<(), Refused>
        ensures answer { result ≡ tables.revise_answer (table_of self.old) }
        ensures left { table_of self.new ≡ tables.revised (table_of self.old) now }
    {
        if !self.is_open() {
            return Err(Refused::NotOpen);
        }
        let (terms, old_end) = (self.terms(), self.old_end());
        let kept = Row::blank().revised(self.longest, terms, old_end, now);
        revise_rows(&mut self.rows, self.longest, terms, old_end, now);
        self.longest = kept.longest;
        Ok(())
    }

    /// What is known of a client.
    ///
    /// # Errors
    ///
    /// `BadClient`.
    pub fn shows(&self, client: u64) -> Result<Row, Refused>
        ensures { result ≡ tables.row_of (table_of self.now) client }
    {
        self.row(client)
    }
}

// What becomes of a sign.
fn heard(row: Row, sign: Sign) -> Heard
    ensures { result ≡ tables.heard row sign }
{
    if row.has_ended(sign.incarnation) {
        return Heard::HasEnded;
    }
    Heard::Waits
}
