//! What is true of all lines.
ghost use Rattle.std.specs.Prelude.{◌≡◌, ℕ, List};
ghost use Rattle.policy_audit.specs.declared.event.Event.TheVariants as event;
ghost use Rattle.pg_archive.specs.Events.{event_text};

/// A line is the same whatever cookie its event sets, so it tells nothing of it.
pub fn no_cookie_told()
    ensures own { (c d : List ℕ) → event_text (event.SetCookie c) ≡ event_text (event.SetCookie d) }
    ensures peer { (n c d : List ℕ) → event_text (event.SetCookieFor n c)
        ≡ event_text (event.SetCookieFor n d) }
{}
