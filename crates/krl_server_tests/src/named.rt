//! Clients, holdings and requests that the rows name.
use crate::acts::{Asked, Change, Held, Who};
use krl_modes::Mode;

pub const A: Who = Who(0, 1);

pub const B: Who = Who(1, 1);

pub const C: Who = Who(2, 1);

// A later incarnation of A, of B, and of C.
pub const A2: Who = Who(0, 2);

pub const B2: Who = Who(1, 2);

pub const C2: Who = Who(2, 2);

pub const FIRST: Held = Held(0, 11, Mode::RangeXX, Some("1"));

pub const SHARED: Held = Held(0, 11, Mode::RangeSS, Some("1"));

pub const SECOND: Held = Held(11, 21, Mode::RangeXX, Some("2"));

pub const BOTH: Held = Held(0, 21, Mode::RangeXX, Some("2"));

pub const LOCK_3: Asked = Asked::Lock(1, 3, Mode::RangeSS);

pub const LOCK_5: Asked = Asked::Lock(1, 5, Mode::RangeXX);

pub const KEEP_FIRST: Asked = Asked::Release(0, 11, Mode::RangeSU);

pub const DELETE: Asked = Asked::Write(1, Change::Delete(10));
