//! A search with no branch on what the numbers are.
ghost use Rattle.std.specs.Prelude.{◌≡◌, ◌≤◌, ◌<◌, ◌^◌, ◌*◌, ◌+◌, ℕ, nat_lt, true, false, length};
ghost use Rattle.std.specs.Prelude.{slice_index_or, take, drop, if◌then◌else◌};
ghost use Rattle.std.specs.List.{AllByRecursion};
ghost use Rattle.krl_blocks.specs.Laid.{Rises};
ghost use Rattle.krl_blocks.specs.Entries.{KeysRise};
ghost use Rattle.krl_blocks.specs.Near.{AreNear, AreKeysNear};

/// 1 if the first number is the lesser, and otherwise 0. It takes no branch.
fn lesser(a: u64, b: u64) -> usize
    requires { (a < 2 ^ 63) × (b < 2 ^ 63) }
    ensures { result ≡ (if nat_lt a b then 1 else 0) }
{
    (a.wrapping_sub(b) >> 63) as usize
}

/// How many of the numbers, which rise, are below the point: they stand first.
pub fn count_below(ns: &[u64], point: u64) -> usize
    requires rising { Rises ns.now }
    requires near { AreNear ns.now }
    requires point { point < 2 ^ 63 }
    ensures within { result ≤ length ns.now }
    ensures below { AllByRecursion (λ t. nat_lt t point ≡ true) (take result ns.now) }
    ensures rest { AllByRecursion (λ t. nat_lt t point ≡ false) (drop result ns.now) }
{
    let n = ns.len();
    if n == 0 {
        return 0;
    }
    let mut s = n.ilog2();
    let whole = 1usize << s;
    let mut base = if ns[whole - 1] < point { n - whole } else { 0 };
    while s > 0 {
        s -= 1;
        let half = 1usize << s;
        base += lesser(ns[base + half - 1], point) << s;
    }
    base + lesser(ns[base], point)
}

/// How many of the entries, whose keys rise, have keys below the point: they stand first.
pub fn count_keys_below<V>(entries: &[(u64, V)], point: u64) -> usize
    requires rising { KeysRise entries.now }
    requires near { AreKeysNear entries.now }
    requires point { point < 2 ^ 63 }
    ensures within { result ≤ length entries.now }
    ensures below { AllByRecursion (λ e. nat_lt e.0 point ≡ true) (take result entries.now) }
    ensures rest { AllByRecursion (λ e. nat_lt e.0 point ≡ false) (drop result entries.now) }
{
    let n = entries.len();
    if n == 0 {
        return 0;
    }
    let mut s = n.ilog2();
    let whole = 1usize << s;
    let mut base = if entries[whole - 1].0 < point {
        n - whole
    } else {
        0
    };
    while s > 0 {
        s -= 1;
        let half = 1usize << s;
        base += lesser(entries[base + half - 1].0, point) << s;
    }
    base + lesser(entries[base].0, point)
}
