//! The sessions of all clients.
ghost use Rattle.std.specs.Prelude.{◌≡◌, ◌<◌, ℕ, Some, None, IfOk, IfSome, IfNone, ◌≤◌, length};
ghost use Rattle.std.specs.Prelude.{set};
ghost use Rattle.krl_server.specs.Servers.{blank_session};
ghost use Rattle.krl_server.specs.StateMeaning.{sessions_of};
ghost use Rattle.krl_modes.specs.declared.limits.TheConstants.{MAX_CLIENTS};

use crate::session::Session;
use krl_messages::PushBody;
use krl_modes::MAX_CLIENTS;
use std::alloc::{AllocError, Global};
use std::marker::Model;

/// A session for each client. They have memory of their own, so that a server is small to move.
#[derive(Drop)]
pub struct Sessions {
    each: Vec<Session>,
}

impl Model for Sessions {
    ghost use Rattle.std.specs.Prelude.{List};
    ghost use Rattle.std.specs.Coded.{coded_list};
    ghost use Rattle.krl_server.specs.declared.session.Session.{Session};
    ghost use Rattle.krl_server.specs.contracts.session.Session as session;

    ghost Value = { List Session };

    ghost coded = { coded_list session.the_row.coded };

    ghost view = { λ s. s.each.items };
}

// A blank session for each client.
fn blank_sessions(alloc: Global) -> Result<Vec<Session>, AllocError>
    ensures full { IfOk result (λ sessions. length sessions.items ≡ MAX_CLIENTS) }
    ensures blank { IfOk result
        (λ sessions. (c : ℕ) → sessions_of sessions.items c ≡ blank_session) }
{
    let mut each = Vec::with_capacity(alloc, MAX_CLIENTS)?;
    for _client in 0..MAX_CLIENTS {
        each.push_reserved(Session::blank());
    }
    Ok(each)
}

impl Sessions {
    /// A blank one for each client.
    ///
    /// # Errors
    ///
    /// `AllocError` if memory is refused.
    pub(crate) fn blank(alloc: Global) -> Result<Sessions, AllocError>
        ensures full { IfOk result (λ sessions. length sessions ≡ MAX_CLIENTS) }
        ensures blank { IfOk result
            (λ sessions. (c : ℕ) → sessions_of sessions c ≡ blank_session) }
    {
        let each = blank_sessions(alloc)?;
        Ok(Sessions { each })
    }

    /// The client's.
    pub(crate) fn of(&self, client: u64) -> &Session
        requires { client < length self.now }
        ensures { result.now ≡ sessions_of self.now client }
    {
        &self.each[client as usize]
    }

    /// The client's, if the number is a client's.
    pub(crate) fn find(&self, client: u64) -> Option<&Session>
        ensures found { IfSome result (λ session. session.now ≡ sessions_of self.now client) }
        ensures none { IfNone result (length self.now ≤ client) }
    {
        self.each.get(client as usize)
    }

    /// The client's is blank again.
    pub(crate) fn clear(&mut self, client: u64)
        requires { client < length self.old }
        ensures { self.new ≡ set self.old client blank_session }
    {
        self.each[client as usize] = Session::blank();
    }

    /// The client's last push counts as acknowledged.
    pub(crate) fn acknowledge(&mut self, client: u64)
        requires { client < length self.old }
        ensures { self.new
            ≡ set self.old client (record (sessions_of self.old client) { unacked = None }) }
    {
        self.each[client as usize].unacked = None;
    }

    /// The client's last push counts as acknowledged, and its request of this number is the last
    /// that was taken.
    pub(crate) fn note_request(&mut self, client: u64, req: u64)
        requires { client < length self.old }
        ensures { self.new ≡ set self.old client
            (record (sessions_of self.old client) { unacked = None; last_request = req }) }
    {
        let session = &mut self.each[client as usize];
        session.unacked = None;
        session.last_request = req;
    }

    /// The client's last push has this number and this body, and is not acknowledged.
    pub(crate) fn note_push(&mut self, client: u64, number: u64, body: PushBody)
        requires { client < length self.old }
        ensures { self.new ≡ set self.old client
            (record (sessions_of self.old client)
            { last_push = number; unacked = Some body }) }
    {
        let session = &mut self.each[client as usize];
        session.last_push = number;
        session.unacked = Some(body);
    }
}
