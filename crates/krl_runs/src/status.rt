//! The exit status of each ending.
ghost use Rattle.std.specs.Prelude.{◌≡◌};
ghost use Rattle.krl_runs.specs.Statuses.{script_status, random_status, rest_status};

use krl_script::Rest;
use krl_text::ScriptFault;

/// Of a script: 0 if its last line was run, otherwise 1.
pub fn of_script(ended: &Result<(), ScriptFault>) -> u8
    ensures { result ≡ script_status ended.now }
{
    match ended {
        Ok(()) => 0,
        Err(_) => 1,
    }
}

/// Of a random run: 0 if all was sound, otherwise 1.
pub fn of_random<T>(ended: &Result<(T, bool), ScriptFault>) -> u8
    ensures { result ≡ random_status ended.now }
{
    match ended {
        Ok((_, true)) => 0,
        Ok((_, false)) | Err(_) => 1,
    }
}

/// Of the rounds after it: 0 if nobody waits, 3 if somebody still does, otherwise 1.
pub fn of_rest(ended: &Result<Rest, ScriptFault>) -> u8
    ensures { result ≡ rest_status ended.now }
{
    match ended {
        Ok(Rest::Reached(_)) => 0,
        Ok(Rest::Missed) => 3,
        Ok(Rest::Unsound(_)) | Err(_) => 1,
    }
}
