//! The version of the interface for C.
ghost use Rattle.std.specs.Prelude.{◌≡◌};

/// The version: a million times the major number, a thousand times the minor one, and the patch.
#[unsafe(no_mangle)]
pub extern "C" fn krl_version() -> u32
    ensures { result ≡ 1000 }
{
    1_000
}
