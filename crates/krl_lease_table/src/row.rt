//! What is known of one client number.
ghost use Rattle.std.specs.Prelude.{◌≡◌};
ghost use Rattle.krl_lease_table.specs.Rows as rows;

use crate::sign::{Asked, Grant, Older, Sign, Signer};
use crate::standing::Standing;
use krl_leases::{FOR_EVER, Kept, TakeOver, Terms, Until};

/// What is known of a client number. Each function here returns what the row is after something.
#[derive(Clone, Copy, Debug, PartialEq, Eq)]
pub struct Row {
    /// The incarnation that was registered last, or 0.
    pub registered: u64,
    pub standing: Standing,
    /// The greatest incarnation of which a sign came.
    pub signer: Option<Signer>,
    /// The sign that is to be answered next.
    pub asked: Option<Asked>,
    /// Whether a lease that does not end may run.
    pub is_unleased: bool,
}

impl Row {
    /// Nothing is known, so an older server may have granted a lease that does not end.
    pub(crate) fn blank() -> Row
        ensures { result ≡ rows.blank }
    {
        Row {
            registered: 0,
            standing: Standing::Absent,
            signer: None,
            asked: None,
            is_unleased: true,
        }
    }

    /// What the store has. Until the server begins, an end is not known.
    pub(crate) fn stored(incarnation: u64, has_left: bool, is_unleased: bool) -> Row
        ensures { result ≡ rows.stored incarnation has_left is_unleased }
    {
        let standing = if has_left || incarnation == 0 {
            Standing::Absent
        } else {
            Standing::Present(Until { moment: FOR_EVER })
        };
        Row {
            registered: incarnation,
            standing,
            signer: None,
            asked: None,
            is_unleased,
        }
    }

    /// What the store has to have of the client.
    pub(crate) fn kept(self, longest: u64) -> Kept
        ensures { result ≡ rows.kept_of longest self }
    {
        Kept {
            longest,
            is_unleased: self.is_unleased,
        }
    }

    /// As the server begins, which is `now`: a registered client may have an older server's lease.
    pub(crate) fn opened(self, longest: u64, terms: Terms, now: u64) -> Row
        ensures { result ≡ rows.opened longest terms now self }
    {
        let standing = match self.standing {
            Standing::Present(_) => Standing::Present(self.kept(longest).until(terms, now)),
            Standing::Absent => Standing::Absent,
            Standing::Ended => Standing::Ended,
        };
        Row { standing, ..self }
    }

    /// Whether this incarnation answers nothing any more, whatever it sends.
    pub(crate) fn has_ended(self, incarnation: u64) -> bool
        ensures { result ≡ rows.has_ended self incarnation }
    {
        incarnation <= self.registered
            && !(self.registered == incarnation && self.standing.may_answer())
    }

    fn signer_after(self, sign: Sign) -> Option<Signer>
        ensures { result ≡ rows.signer_after self.signer sign }
    {
        let Sign {
            incarnation,
            older,
            ..
        } = sign;
        match self.signer {
            Some(signer) if incarnation < signer.incarnation => self.signer,
            Some(_) => Some(Signer { incarnation, older }),
            None => Some(Signer { incarnation, older }),
        }
    }

    // Whether the sign that waits is the registered incarnation's: no other takes its place.
    fn serves_registered(self) -> bool
        ensures { result ≡ rows.serves_registered self }
    {
        match self.asked {
            Some(asked) => asked.incarnation == self.registered && self.standing.may_answer(),
            None => false,
        }
    }

    fn asked_after(self, sign: Sign, commits: u64) -> Option<Asked>
        ensures { result ≡ rows.asked_after self sign commits }
    {
        if self.registered != sign.incarnation && self.serves_registered() {
            return self.asked;
        }
        Some(Asked {
            incarnation: sign.incarnation,
            stamp: sign.stamp,
            commits,
        })
    }

    fn standing_after(self, terms: Terms, sign: Sign, now: u64) -> Standing
        ensures { result ≡ rows.standing_after terms self sign now }
    {
        if self.registered == sign.incarnation {
            return self.standing.sign(terms, sign.said, now);
        }
        self.standing
    }

    /// After a sign. So many commits have begun.
    pub(crate) fn signed(self, terms: Terms, sign: Sign, commits: u64, now: u64) -> Row
        ensures { result ≡ rows.signed terms self sign commits now }
    {
        if self.has_ended(sign.incarnation) {
            return self;
        }
        Row {
            standing: self.standing_after(terms, sign, now),
            signer: self.signer_after(sign),
            asked: self.asked_after(sign, commits),
            ..self
        }
    }

    // The sign that may be answered, once so many commits have been made.
    fn due(self, made: u64) -> Option<Asked>
        ensures { result ≡ rows.due self.asked made }
    {
        match self.asked {
            Some(asked) if asked.commits < made => Some(asked),
            Some(_) => None,
            None => None,
        }
    }

    /// The terms that may leave.
    pub(crate) fn grant(self, terms: Terms, made: u64) -> Option<Grant>
        ensures { result ≡ rows.grant terms self made }
    {
        match self.due(made) {
            Some(asked) if self.has_ended(asked.incarnation) => None,
            Some(asked) => Some(Grant {
                incarnation: asked.incarnation,
                stamp: asked.stamp,
                length: terms.length,
            }),
            None => None,
        }
    }

    /// After they have left.
    pub(crate) fn granted(self, made: u64) -> Row
        ensures { result ≡ rows.granted self made }
    {
        match self.due(made) {
            Some(_) => Row {
                asked: None,
                ..self
            },
            None => self,
        }
    }

    // What the host of this incarnation knows of older ones, if the last sign is its own.
    fn older_than(self, incarnation: u64) -> Option<Older>
        ensures { result ≡ rows.older_than self.signer incarnation }
    {
        match self.signer {
            Some(signer) if signer.incarnation == incarnation => Some(signer.older),
            Some(_) => None,
            None => None,
        }
    }

    // If no sign came, starting the client vouches that the one before is over. So it does on a
    // server without leases.
    fn asks(self, terms: Terms, incarnation: u64) -> TakeOver
        ensures { result ≡ rows.asks terms self incarnation }
    {
        let (over, is_vouched) = match self.older_than(incarnation) {
            Some(Older::Unknown) => (0, false),
            Some(Older::IsOver(over)) => (over, false),
            Some(Older::Vouched) => (0, true),
            None => (0, true),
        };
        TakeOver {
            registered: self.registered,
            incarnation,
            over,
            is_vouched: is_vouched || terms.length == FOR_EVER,
        }
    }

    /// Whether a Hello of this incarnation may be handed to the server.
    pub(crate) fn admits(self, terms: Terms, incarnation: u64, now: u64) -> bool
        ensures { result ≡ rows.admits terms self incarnation now }
    {
        match self.standing {
            Standing::Present(until) => until.hears(self.asks(terms, incarnation), now),
            Standing::Absent => true,
            Standing::Ended => true,
        }
    }

    /// After that was asked: an incarnation that makes room answers nothing any more.
    pub(crate) fn admitted(self, terms: Terms, incarnation: u64, now: u64) -> Row
        ensures { result ≡ rows.admitted terms self incarnation now }
    {
        if self.registered < incarnation
            && self.standing.may_answer()
            && self.admits(terms, incarnation, now)
        {
            return Row {
                standing: Standing::Ended,
                ..self
            };
        }
        self
    }

    // The host of an incarnation of which no sign came knows nothing of leases.
    fn terms_of(self, terms: Terms, incarnation: u64) -> Terms
        ensures { result ≡ rows.terms_of terms self incarnation }
    {
        if self.older_than(incarnation).is_some() {
            return terms;
        }
        Terms {
            length: FOR_EVER,
            drift: terms.drift,
        }
    }

    /// After the server has registered an incarnation.
    pub(crate) fn registered(self, terms: Terms, incarnation: u64, now: u64) -> Row
        ensures { result ≡ rows.registered terms self incarnation now }
    {
        let terms = self.terms_of(terms, incarnation);
        Row {
            registered: incarnation,
            standing: Standing::Present(Until::register(terms, now)),
            is_unleased: self.kept(0).register(terms).is_unleased,
            ..self
        }
    }

    /// The incarnation by whose Hello and Bye the client may be evicted.
    pub(crate) fn successor(self, now: u64) -> Option<u64>
        ensures { result ≡ rows.successor self now }
    {
        if self.standing.may_be_evicted(now) && self.registered < u64::MAX {
            return Some(self.registered + 1);
        }
        None
    }

    /// After that was asked: a client that may be evicted answers nothing any more.
    pub(crate) fn evicting(self, now: u64) -> Row
        ensures { result ≡ rows.evicting self now }
    {
        match self.successor(now) {
            Some(_) => Row {
                standing: Standing::Ended,
                ..self
            },
            None => self,
        }
    }

    /// After the server has registered an incarnation that its own host made, to evict the client.
    pub(crate) fn evicted(self, successor: u64) -> Row
        ensures { result ≡ rows.evicted self successor }
    {
        Row {
            registered: successor,
            standing: Standing::Ended,
            is_unleased: false,
            ..self
        }
    }

    /// After the client has left.
    pub(crate) fn left(self) -> Row
        ensures { result ≡ rows.left self }
    {
        Row {
            standing: Standing::Absent,
            ..self
        }
    }

    fn until(self) -> Until
        ensures { result ≡ rows.until_of self.standing }
    {
        match self.standing {
            Standing::Present(until) => until,
            Standing::Absent => Until { moment: FOR_EVER },
            Standing::Ended => Until { moment: FOR_EVER },
        }
    }

    /// What the store has to have of the client from now on.
    pub(crate) fn revised(self, longest: u64, terms: Terms, old: Until, now: u64) -> Kept
        ensures { result ≡ rows.revised longest terms old now self }
    {
        self.kept(longest).revise(terms, old, self.until(), now)
    }

    /// After it has.
    pub(crate) fn with_kept(self, kept: Kept) -> Row
        ensures { result ≡ rows.with_kept self kept }
    {
        Row {
            is_unleased: kept.is_unleased,
            ..self
        }
    }
}
