//! Whether what clients hold is compatible, looked at point by point.
ghost use Rattle.std.specs.Prelude.{◌≡◌, ◌&&◌};
ghost use Rattle.krl_modes.specs.Parts.{ranges_compatible, keys_compatible};
ghost use Rattle.krl_world.specs.States.{range_held, key_held};
ghost use Rattle.krl_world.specs.Fields.{meaning};
ghost use Rattle.krl_script.specs.Soundness.{are_compatible, all_below, is_sound_at, numbers_below};
ghost use Rattle.krl_script.specs.Soundness.{first_unsound, unsound_point};

use krl_modes::{END, KeyPart, MAX_CLIENTS, RangePart};
use krl_world::World;

// It looks at the points below this one, and at the last two.
const POINTS: u64 = 64;

// Whether what the client holds at the point is compatible with these parts.
fn is_compatible(world: &World, range: RangePart, key: KeyPart, client: u64, point: u64) -> bool
    ensures { result ≡ ranges_compatible range (range_held (meaning world.now) client point)
        && keys_compatible key (key_held (meaning world.now) client point) }
{
    let (other_range, other_key) = world.held(client, point);
    range.compatible(other_range) && key.compatible(other_key)
}

// Whether what the client holds at the point is compatible with what each client before it holds
// there.
fn is_compatible_below(world: &World, client: u64, point: u64) -> bool
    ensures { result ≡ all_below client (are_compatible (meaning world.now) point client) }
{
    let (range, key) = world.held(client, point);
    // N is compatible with everything.
    if range == RangePart::N && key == KeyPart::N {
        return true;
    }
    'others: for other in 0..client {
        if !is_compatible(world, range, key, other, point) {
            return false;
        }
    }
    true
}

/// Whether what the first so many clients hold at the point is compatible.
pub fn is_sound_at(world: &World, clients: u64, point: u64) -> bool
    ensures { result ≡ is_sound_at (meaning world.now) clients point }
{
    'clients: for client in 0..clients {
        if !is_compatible_below(world, client, point) {
            return false;
        }
    }
    true
}

/// The least point below this one at which what the first so many clients hold is not compatible.
pub fn least_unsound(world: &World, clients: u64, below: u64) -> Option<u64>
    ensures { result ≡ first_unsound (meaning world.now) clients (numbers_below below) }
{
    'points: for point in 0..below {
        if !is_sound_at(world, clients, point) {
            return Some(point);
        }
    }
    None
}

/// The least of the points 0 to 63, END - 1 and END at which what two clients hold is not
/// compatible.
pub fn unsound_point(world: &World) -> Option<u64>
    ensures { result ≡ unsound_point (meaning world.now) }
{
    let below = least_unsound(world, MAX_CLIENTS as u64, POINTS);
    if below.is_some() {
        return below;
    }
    if !is_sound_at(world, MAX_CLIENTS as u64, END - 1) {
        return Some(END - 1);
    }
    if !is_sound_at(world, MAX_CLIENTS as u64, END) {
        return Some(END);
    }
    None
}
