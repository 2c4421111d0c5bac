ghost use Rattle.std.specs.Prelude.{◌≡◌, [], ℕ, IfOk, None, Option, length, replicate, true};
ghost use Rattle.lake_types.specs.declared.limits.TheConstants.{MAX_SESSIONS as SESSIONS};
ghost use Rattle.lake_model.specs.Core.{is_session};
ghost use Rattle.door.specs.Opened.{Opened};
ghost use Rattle.lake_top.specs.Sixteen.{AreReady, owns_of};

use file_disk::Held;
use session::Session;
use std::alloc::{AllocError, Global};

/// Sixteen sessions with nothing open, of the numbers 1 to 16.
pub fn new_sessions<F: Held>(alloc: Global) -> Result<Vec<Session<F>>, AllocError>
    ensures sixteen { IfOk result (λ sessions. length sessions.items ≡ SESSIONS) }
    ensures ready { IfOk result (λ sessions. (opened : ℕ → Option Opened) → ((s : ℕ) → is_session s ≡ true → opened s ≡ None) →
        AreReady F.name F.size F.bytes opened sessions.items) }
    ensures owns { IfOk result (λ sessions. owns_of sessions.items ≡ replicate SESSIONS []) }
{
    let mut sessions = Vec::new(alloc);
    for place in 0..16u8 {
        sessions.push(Session::new(place + 1))?;
    }
    Ok(sessions)
}
