//! A law of the transcripts. The function does nothing; its contract is the law.
ghost use Rattle.std.specs.Prelude.{◌≡◌, Bool, List, ℕ, [], false};
ghost use Rattle.std.specs.List.{list_any};
ghost use Rattle.policy_audit.specs.declared.opening.Opening.{Opening};
ghost use Rattle.pg_script.specs.Transcript.{text};

use policy_audit::Opening;

/// A script in whose steps memory never lacks is answered by the policy alone.
pub fn text_without_lack()
    ensures { (lacking : List Bool) (o : Opening) (script : List ℕ) →
        list_any (λ lacks. lacks) lacking ≡ false → text lacking o script ≡ text [] o script }
{}
