//! A first waiter, and what it finds.
use krl_modes::{MAX_CLIENTS, Mode, Span};
use krl_queue::Waiter;

/// The first waiter of a slot, and how the slot stands.
#[derive(Clone, Copy)]
pub struct FirstWaiter {
    /// How it waits.
    pub waiter: Waiter,
    /// The slot's span.
    pub span: Span,
    /// What each client holds there.
    pub modes: [Mode; MAX_CLIENTS],
}
