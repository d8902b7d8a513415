//! Going over the entries of an audit that changed rows.
ghost use Rattle.std.specs.Prelude.{◌≡◌};
ghost use Rattle.std.specs.List.{filter};
ghost use Rattle.std.specs.Iterator.{YieldsFirstRef, item_count};
ghost use Rattle.policy_audit.specs.Log.{changes_rows};

use crate::entry::Entry;
use crate::later::Later;
use std::marker::Model;

/// Entries of an audit in their order, up to its end, as far as they changed rows. Contracts see it
/// as the list of those left.
#[derive(Debug, Drop)]
pub struct Changing<'a> {
    later: Later<'a>,
}

impl<'a> Model for Changing<'a> {
    ghost use Rattle.std.specs.Prelude.{List};
    ghost use Rattle.std.specs.List.{filter};
    ghost use Rattle.policy_audit.specs.declared.entry.Entry.{Entry};
    ghost use Rattle.policy_audit.specs.Log.{changes_rows};

    ghost Value = { List Entry };

    ghost view = { λ changing. filter changes_rows changing.later };
}

impl<'a> Changing<'a> {
    pub(crate) fn new(later: Later<'a>) -> Changing<'a>
        ensures { result ≡ filter changes_rows later.entry }
    {
        Changing { later }
    }
}

impl<'a> Iterator for Changing<'a> {
    type Item = &'a Entry;

    ghost next_gives = { YieldsFirstRef (λ changing. changing) };

    ghost remaining = { item_count (λ changing. changing) };

    fn next(&mut self) -> Option<&'a Entry> {
        loop {
            self.later.skip_unchanged();
            let entry = self.later.next()?;
            if entry.has_changes() {
                return Some(entry);
            }
        }
    }
}
