//! The headline over one fenced store, while old servers continue for ever: laws of the code of the
//! servers and the clients. Each function has an empty body: its contract is a theorem.
ghost use Rattle.std.specs.Prelude.{◌≡◌, false};
ghost use Rattle.krl_messages.specs.declared.to_server.ToServer.{ToServer};
ghost use Rattle.krl_messages.specs.Members.{In};
ghost use Rattle.krl_server.specs.Servers.{Server};
ghost use Rattle.krl_server.specs.Steps.{alarms};
ghost use Rattle.krl_world.specs.declared.message.Message.TheVariants as message;
ghost use Rattle.krl_world.specs.Promises.{Headline};
ghost use Rattle.krl_world.specs.States.{Up};
ghost use Rattle.krl_failover.specs.Worlds.{FencedWorld, IsReached, OldGrants};

/// Whatever old servers do: no two clients hold incompatible parts at one point, each scan that a
/// client answers from its cache is that range of the store's index, and each numbered write
/// changed that at most once, and once if its client received Applied.
pub fn headline()
    ensures { (w : FencedWorld) → IsReached w → Headline w.world }
{}

/// And on no message that was sent does the store's server report Alarm.
pub fn no_alarm()
    ensures { (w : FencedWorld) → IsReached w → (s : Server) → w.world.server ≡ Up s
        → (m : ToServer)
        → In (message.ToServer m) w.world.sent → alarms s m ≡ false }
{}

/// These laws are not empty: after a server has started in epoch 2, a client comes to hold a lock
/// by a grant of the one before.
pub fn goes_on()
    ensures { OldGrants }
{}
