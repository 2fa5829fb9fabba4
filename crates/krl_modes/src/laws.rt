//! What holds of the limits: each function's contract is a law, and its body is empty.
ghost use Rattle.std.specs.Prelude.{◌≡◌};
ghost use Rattle.krl_modes.specs.declared.limits.TheConstants.{MAX_CLIENTS, MAX_HOLDINGS, MAX_PINS};
ghost use Rattle.krl_modes.specs.declared.limits.TheConstants.{MAX_VALUE_BYTES, MAX_ROOM};
ghost use Rattle.krl_modes.specs.declared.limits.TheConstants.{STANDARD_REACH, STANDARD_ROOM};

/// The limits are these numbers.
pub fn limits_are_the_numerals()
    ensures clients { MAX_CLIENTS ≡ 64 }
    ensures holdings { MAX_HOLDINGS ≡ 128 }
    ensures pins { MAX_PINS ≡ 8 }
    ensures value { MAX_VALUE_BYTES ≡ 32 }
    ensures room { MAX_ROOM ≡ 1048576 }
    ensures standard_reach { STANDARD_REACH ≡ 8 }
    ensures standard_room { STANDARD_ROOM ≡ 65536 }
{}
