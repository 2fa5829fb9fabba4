//! What a call answers.
ghost use Rattle.std.specs.Prelude.{◌≡◌, Some};
ghost use Rattle.krl_embed.specs.Replies.{code_of};

use crate::code::Code;

/// A code, and what it refers to: a count, a point, a key or a place.
#[repr(C)]
#[derive(Clone, Copy)]
pub struct Reply {
    code: u32,
    detail: u64,
}

impl Reply {
    /// This code, of which there is nothing more to report.
    #[tactic(auto, unfolding(crate::specs::Replies::code_at))]
    pub(crate) fn of(code: Code) -> Reply
        ensures code { code_of result ≡ Some code }
        ensures detail { result.detail ≡ 0 }
    {
        Reply {
            code: code as u32,
            detail: 0,
        }
    }

    /// This code, and what it refers to.
    #[tactic(auto, unfolding(crate::specs::Replies::code_at))]
    pub(crate) fn with(code: Code, detail: u64) -> Reply
        ensures code { code_of result ≡ Some code }
        ensures detail { result.detail ≡ detail }
    {
        Reply {
            code: code as u32,
            detail,
        }
    }
}
