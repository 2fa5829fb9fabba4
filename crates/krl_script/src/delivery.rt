//! What became of a delivery.
use krl_world::Refused;

/// What became of the oldest waiting message.
#[derive(Clone, Copy)]
pub enum Delivery {
    /// None waits.
    Idle,
    /// It is delivered, and no longer waits.
    Delivered,
    /// It continues to wait.
    Refused(Refused),
}
