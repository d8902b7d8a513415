//! What the node lists of the peer of a link.
ghost use Rattle.std.specs.Prelude.{◌≡◌, IfOk, length, map, replicate};
ghost use Rattle.node_net.specs.Listings.{IsListing};
ghost use Rattle.scope_core.specs.Table.{count_of};

use crate::patience::HostedLink;
use dist_types::{NodeName, OutOfMemory, Row, Scope};
use otp_link::Table;
use scope_core::ScopeTable;
use std::alloc::Global;
use std::sync::Wait;
use std::time::Clock;

/// What the node of a link lists, behind its lock.
#[derive(Drop)]
pub(crate) struct Listed<'a, R: Wait + Clock> {
    pub(crate) at: &'a HostedLink<'a, R>,
}

impl<R: Wait + Clock> Table for Listed<'_, R> {
    ghost lists = { λ _ scope rows. IsListing scope rows };

    fn counts(
        &self,
        alloc: Global,
        scope: &Scope,
        rows: &[Row],
    ) -> Result<Vec<usize>, OutOfMemory> {
        let shared = self.at.node.shared.lock(self.at.rt);
        match shared.core().table(scope) {
            Some(table) => {
                let counts = counts_in(alloc, table, rows)?;
                Ok(counts)
            }
            None => {
                let counts = no_counts(alloc, rows)?;
                Ok(counts)
            }
        }
    }

    fn total(&self, scope: &Scope, peer: &NodeName) -> usize {
        let shared = self.at.node.shared.lock(self.at.rt);
        match shared.core().table(scope) {
            Some(table) => table.peer_total(peer),
            None => 0,
        }
    }
}

/// How often the table counts each of these rows.
fn counts_in(alloc: Global, table: &ScopeTable, rows: &[Row]) -> Result<Vec<usize>, OutOfMemory>
    ensures { IfOk result (λ counts. counts.items ≡
        map (λ row. count_of table.now row.group row.pid) rows.now) }
{
    let mut counts = Vec::with_capacity(alloc, rows.len())?;
    for row in rows {
        counts.push(table.count(&row.group, &row.pid))?;
    }
    Ok(counts)
}

/// Of a scope that doesn't run nothing is listed.
fn no_counts(alloc: Global, rows: &[Row]) -> Result<Vec<usize>, OutOfMemory>
    ensures { IfOk result (λ counts. counts.items ≡ replicate (length rows.now) 0) }
{
    let counts = vec![in alloc; 0usize; rows.len()]?;
    Ok(counts)
}
