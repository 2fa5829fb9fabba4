//! The table with its post.
ghost use Rattle.std.specs.Prelude.{◌≡◌, []};
ghost use Rattle.krl_nodes.specs.Shown.{shown};
ghost use Rattle.krl_nodes.specs.Steps.{Took, MayGive, Agreeable, given_view};

use crate::post::Post;
use crate::rule::{Give, Next, OnePost, Opening, Take, Ticket};
use crate::view::View;
use atomic_table::Table;
use krl_world::{ClientPlace, ServerPlace};
use std::alloc::Global;
use std::marker::Model;
use std::snapshot::Snapshot;
use std::sync::Wait;

/// The post and its word, which nodes share. Contracts see which one it is.
#[derive(Drop)]
pub struct Office {
    pub(crate) table: Table<Post, View, Snapshot<Opening>, OnePost, Global>,
}

impl Model for Office {
    ghost use Rattle.atomic_table.specs.Seated.{TableId, table_id_coded};

    ghost Value = { TableId };

    ghost coded = { table_id_coded };

    ghost use Rattle.std.specs.Prelude.{◌≡◌};

    ghost view = { λ o. o.table.shared.table_id };

    ghost invariant = { λ o.
        (o.table.shared.table_id.words ≡ 1) × (o.table.shared.table_id.slots ≡ 1) };
}

impl Office {
    /// Waits for the post and takes it.
    pub(crate) fn take<R: Wait>(&self, rt: &R, ticket: &mut Ticket)
        requires own { ticket.old.table_id ≡ self.now }
        requires free { ticket.old.me.1 ≡ [] }
        ensures own { (ticket.new.table_id ≡ ticket.old.table_id)
            × (ticket.new.id ≡ ticket.old.id) }
        ensures took { Took ticket.old.me ticket.new.me }
    {
        for _ in rt.forever() {
            if self.table.shared.compare_exchange::<Take>(ticket, 0, 0, 1) == 0 {
                return;
            }
        }
        unreachable!()
    }

    /// Gives the post back, and the seat is this node from now on.
    pub(crate) fn give_back<J: Next>(&self, ticket: &mut Ticket)
        requires own { ticket.old.table_id ≡ self.now }
        requires may { MayGive ticket.old.me J.next }
        ensures own { (ticket.new.table_id ≡ ticket.old.table_id)
            × (ticket.new.id ≡ ticket.old.id) }
        ensures view { ticket.new.me ≡ (given_view ticket.old.me J.next, []) }
        ensures stands { Agreeable ticket.old.me.0.opening (shown J.next) }
    {
        self.table.shared.store::<Give<J>>(ticket, 0, 0);
    }

    // The same. The call names the server, which only its proof reads.
    pub(crate) fn give_server<J: Next>(&self, ticket: &mut Ticket, _desk: &ServerPlace)
        requires own { ticket.old.table_id ≡ self.now }
        requires may { MayGive ticket.old.me J.next }
        ensures own { (ticket.new.table_id ≡ ticket.old.table_id)
            × (ticket.new.id ≡ ticket.old.id) }
        ensures view { ticket.new.me ≡ (given_view ticket.old.me J.next, []) }
        ensures stands { Agreeable ticket.old.me.0.opening (shown J.next) }
    {
        self.give_back::<J>(ticket);
    }

    // The same. The call names the client's number and seat, which only its proof reads.
    pub(crate) fn give_client<J: Next>(
        &self,
        ticket: &mut Ticket,
        _number: u64,
        _seat: &ClientPlace,
    )
        requires own { ticket.old.table_id ≡ self.now }
        requires may { MayGive ticket.old.me J.next }
        ensures own { (ticket.new.table_id ≡ ticket.old.table_id)
            × (ticket.new.id ≡ ticket.old.id) }
        ensures view { ticket.new.me ≡ (given_view ticket.old.me J.next, []) }
        ensures stands { Agreeable ticket.old.me.0.opening (shown J.next) }
    {
        self.give_back::<J>(ticket);
    }
}
