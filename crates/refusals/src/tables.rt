//! The table of a scope of `b@h`.
ghost use Rattle.std.specs.Prelude.{◌≡◌, All, IfOk, codes};

use crate::calls::{Log, Subject, insisted, play_all};
use crate::rows::put_fault;
use anyhow::Result;
use dist_types::{Group, GroupChange, MAX_ROWS, NodeName, OutOfMemory, Pid, Row, TryClone};
use pg_text::{Printed, put_bytes, put_each, put_number, put_word};
use scope_core::{ScopeTable, TableFault};
use std::alloc::Global;
use std::sync::Wait;

type Text = &'static str;

/// The most rows of one node, as the calls are given it.
const LIMIT: u32 = MAX_ROWS as u32;

/// Processes by their numbers.
type Numbers = &'static [u64];

/// What is done with the table, for a group, or for a peer and a group.
#[derive(Clone, Copy, Debug)]
enum Deed {
    Join(Text, Numbers),
    Leave(Text, Numbers),
    /// Who would leave.
    Leaving(Text, Numbers),
    Sync(Text, Text, Numbers),
    JoinRemote(Text, Text, Numbers),
    LeaveRemote(Text, Text, Numbers),
    /// What the exit of a process changes, and then the exit.
    Exit(u64),
    DropPeer(Text),
    Clear,
}

/// More of a group than stand in one list of its index, in no order.
const CROWD: Numbers = &[
    25, 50, 8, 33, 58, 16, 41, 66, 24, 49, 7, 32, 57, 15, 40, 65, 23, 48, 6, 31, 56, 14, 39, 64,
    22, 47, 5, 30, 55, 13, 38, 63, 21, 46, 4, 29, 54, 12, 37, 62, 20, 45, 3, 28, 53, 11, 36, 61,
    19, 44, 2, 27, 52, 10, 35, 60, 18, 43, 1, 26, 51, 9, 34, 59, 17, 42,
];

/// Rows come and go, own ones and those of two peers; refusals are among the answers.
static DEEDS: [Deed; 27] = [
    Deed::Join("g", &[2, 1, 1]),
    Deed::Join("h", &[1]),
    Deed::Leaving("g", &[1, 1, 1, 2]),
    Deed::Leave("g", &[1, 1, 2, 2]),
    Deed::Leave("g", &[3]),
    Deed::Join("g", &[3, 3, 3]),
    Deed::Join("h", &[5, 3, 4, 1]),
    Deed::Join("w", &[3]),
    Deed::Sync("a@h", "g", &[7, 7]),
    Deed::Sync("a@h", "g", &[7, 8]),
    Deed::Sync("a@h", "g", &[8, 7]),
    Deed::Sync("c@h", "w", &[]),
    Deed::JoinRemote("c@h", "w", &[5, 4, 5]),
    Deed::LeaveRemote("c@h", "w", &[5, 5, 5]),
    Deed::LeaveRemote("c@h", "w", &[5]),
    // Rows beside others, some of them there, in no order and repeated; and the same and others in
    // place of them.
    Deed::JoinRemote("c@h", "w", &[9, 1, 5, 8, 2, 2, 7, 3, 6]),
    Deed::Sync("c@h", "w", &[6, 2, 10, 9, 4, 1]),
    Deed::JoinRemote("a@h", "h", &[7]),
    Deed::JoinRemote("a@h", "g", &[1, 9, 8]),
    Deed::Join("m", CROWD),
    Deed::JoinRemote("a@h", "m", CROWD),
    Deed::LeaveRemote("a@h", "m", &[66, 1, 30]),
    Deed::Leave("m", &[3, 65, 7]),
    Deed::Exit(3),
    Deed::DropPeer("c@h"),
    Deed::DropPeer("z@h"),
    Deed::Clear,
];

/// What was answered.
#[derive(Drop)]
enum Answer {
    Changes(Vec<GroupChange>),
    Pids(Vec<Pid>),
    Fault(TableFault),
}

/// A table of b@h.
#[derive(Drop)]
struct Own {
    alloc: Global,
    table: ScopeTable,
    answer: Answer,
    ghost own: { table.own ≡ codes "b@h" },
}

/// Processes of b@h.
#[derive(Drop)]
struct Crowd {
    group: Group,
    list: Vec<Pid>,
    ghost own: { All (λ pid. pid.node ≡ codes "b@h") list.items },
}

/// Rows of a peer's processes.
#[derive(Drop)]
struct PeerRows {
    peer: NodeName,
    rows: Vec<Row>,
    ghost own: { All (λ row. row.pid.node ≡ peer) rows.items },
}

pub fn play<R: Print + Eprint + Wait>(rt: &R, alloc: Global, log: &mut Log) -> Result<()> {
    let mut own = insisted(rt, "table", || Own::new(alloc))?;
    play_all(rt, log, &mut own, &DEEDS)
}

fn name(alloc: Global, text: Text) -> Result<NodeName, OutOfMemory> {
    match NodeName::parse(alloc, text.as_bytes()) {
        Ok(name) => Ok(name),
        Err(_) => Err(OutOfMemory),
    }
}

fn own_name(alloc: Global) -> Result<NodeName, OutOfMemory>
    ensures { IfOk result (λ name. name ≡ codes "b@h") }
{
    match NodeName::parse(alloc, b"b@h") {
        Ok(name) => Ok(name),
        Err(_) => Err(OutOfMemory),
    }
}

fn group(alloc: Global, text: Text) -> Result<Group, OutOfMemory> {
    match Group::parse(alloc, text.as_bytes()) {
        Ok(group) => Ok(group),
        Err(_) => Err(OutOfMemory),
    }
}

/// A process of b@h.
fn process(alloc: Global, number: u64) -> Result<Pid, OutOfMemory>
    ensures { IfOk result (λ pid. pid.node ≡ codes "b@h") }
{
    let node = own_name(alloc)?;
    Ok(Pid {
        node,
        creation: 1,
        number,
    })
}

fn crowd_of(alloc: Global, text: Text, numbers: &[u64]) -> Result<Crowd, OutOfMemory> {
    let group = group(alloc, text)?;
    let mut list = Vec::new(alloc);
    for number in numbers {
        list.push(process(alloc, *number)?)?;
    }
    Ok(Crowd { group, list })
}

fn peer_rows(
    alloc: Global,
    peer: Text,
    text: Text,
    numbers: &[u64],
) -> Result<PeerRows, OutOfMemory> {
    let peer = name(alloc, peer)?;
    let rows = rows_of(alloc, &peer, text, numbers)?;
    Ok(PeerRows { peer, rows })
}

fn rows_of(
    alloc: Global,
    peer: &NodeName,
    text: Text,
    numbers: &[u64],
) -> Result<Vec<Row>, OutOfMemory>
    ensures { IfOk result (λ rows. All (λ row. row.pid.node ≡ peer.now) rows.items) }
{
    let mut rows = Vec::new(alloc);
    for number in numbers {
        rows.push(row_of(alloc, peer, text, *number)?)?;
    }
    Ok(rows)
}

fn row_of(alloc: Global, peer: &NodeName, text: Text, number: u64) -> Result<Row, OutOfMemory>
    ensures { IfOk result (λ row. row.pid.node ≡ peer.now) }
{
    let group = group(alloc, text)?;
    let pid = Pid {
        node: peer.try_clone(alloc)?,
        creation: 1,
        number,
    };
    Ok(Row { group, pid })
}

impl Own {
    fn new(alloc: Global) -> Result<Own, OutOfMemory> {
        let own = own_name(alloc)?;
        let table = ScopeTable::new(alloc, own);
        let answer = Answer::Changes(Vec::new(alloc));
        Ok(Own {
            alloc,
            table,
            answer,
        })
    }

    fn of_crowd(&mut self, deed: Deed, crowd: &Crowd) -> Result<Answer, OutOfMemory> {
        match deed {
            Deed::Join(..) => changed(self.table.join_local(&crowd.group, &crowd.list, LIMIT)),
            Deed::Leave(..) => changed(self.table.leave_local(&crowd.group, &crowd.list)),
            _ => Ok(Answer::Pids(self.table.leaving(&crowd.group, &crowd.list)?)),
        }
    }

    fn of_peer(&mut self, deed: Deed, listed: &PeerRows) -> Result<Answer, OutOfMemory> {
        match deed {
            Deed::Sync(..) => changed(self.table.sync(&listed.peer, &listed.rows, LIMIT)),
            Deed::JoinRemote(..) => {
                changed(self.table.join_remote(&listed.peer, &listed.rows, LIMIT))
            }
            _ => changed(self.table.leave_remote(&listed.peer, &listed.rows)),
        }
    }

    fn exit(&mut self, number: u64) -> Result<Answer, OutOfMemory> {
        let pid = process(self.alloc, number)?;
        let changes = self.table.exit_change(&pid)?;
        self.table.exit(&pid);
        Ok(Answer::Changes(changes))
    }

    fn drop_peer(&mut self, peer: Text) -> Result<Answer, OutOfMemory> {
        let peer = name(self.alloc, peer)?;
        let changes = self.table.drop_change(&peer)?;
        self.table.drop_peer(&peer);
        Ok(Answer::Changes(changes))
    }

    fn clear(&mut self) -> Result<Answer, OutOfMemory> {
        let changes = self.table.clear_change()?;
        self.table.clear();
        Ok(Answer::Changes(changes))
    }

    fn answer_to(&mut self, deed: Deed) -> Result<Answer, OutOfMemory> {
        match deed {
            Deed::Join(group, numbers)
            | Deed::Leave(group, numbers)
            | Deed::Leaving(group, numbers) => {
                let crowd = crowd_of(self.alloc, group, numbers)?;
                self.of_crowd(deed, &crowd)
            }
            Deed::Sync(peer, group, numbers)
            | Deed::JoinRemote(peer, group, numbers)
            | Deed::LeaveRemote(peer, group, numbers) => {
                let listed = peer_rows(self.alloc, peer, group, numbers)?;
                self.of_peer(deed, &listed)
            }
            Deed::Exit(number) => self.exit(number),
            Deed::DropPeer(peer) => self.drop_peer(peer),
            Deed::Clear => self.clear(),
        }
    }
}

impl Own {
    fn put_group(&self, group: &Group, out: &mut Vec<u8>) -> Result<(), OutOfMemory> {
        put_bytes(group.as_bytes(), out)?;
        put_pids(self.alloc, "", &self.table.members(group)?, out)?;
        let own = self.table.local_members(group)?.len();
        put_number(" own ", own as u64, out)?;
        put_word("; ", out)
    }

    fn put_own(&self, out: &mut Vec<u8>) -> Result<(), OutOfMemory> {
        let groups = self.table.local_groups()?.len();
        put_number("own groups ", groups as u64, out)?;
        let rows = self.table.local_rows()?.len();
        put_number(" own rows ", rows as u64, out)
    }
}

fn changed(told: Result<Vec<GroupChange>, TableFault>) -> Result<Answer, OutOfMemory> {
    match told {
        Ok(changes) => Ok(Answer::Changes(changes)),
        Err(TableFault::OutOfMemory) => Err(OutOfMemory),
        Err(fault) => Ok(Answer::Fault(fault)),
    }
}

impl Subject for Own {
    type Deed = Deed;

    fn make<R: Wait>(&mut self, _rt: &R, deed: Deed) -> Result<(), OutOfMemory> {
        self.answer = self.answer_to(deed)?;
        Ok(())
    }

    fn tell<R: Wait>(&self, _rt: &R, out: &mut Vec<u8>) -> Result<(), OutOfMemory> {
        match &self.answer {
            Answer::Changes(changes) => put_changes(self.alloc, changes, out),
            Answer::Pids(pids) => put_pids(self.alloc, "pids", pids, out),
            Answer::Fault(fault) => return put_fault(fault, out),
        }?;
        put_word("\n", out)
    }

    /// Each group with its processes, and how many of them are own ones.
    fn show<R: Wait>(&self, _rt: &R, out: &mut Vec<u8>) -> Result<(), OutOfMemory> {
        for group in &self.table.groups()? {
            self.put_group(group, out)?;
        }
        self.put_own(out)
    }
}

fn put_changes(
    alloc: Global,
    changes: &[GroupChange],
    out: &mut Vec<u8>,
) -> Result<(), OutOfMemory> {
    put_word("changes", out)?;
    for change in changes {
        put_change(alloc, change, out)?;
    }
    Ok(())
}

fn put_change(alloc: Global, change: &GroupChange, out: &mut Vec<u8>) -> Result<(), OutOfMemory> {
    put_word(" ", out)?;
    put_bytes(change.group.as_bytes(), out)?;
    put_pids(alloc, " left", change.left.as_slice(), out)?;
    put_pids(alloc, " joined", change.joined.as_slice(), out)
}

fn put_pids(alloc: Global, word: &str, pids: &[Pid], out: &mut Vec<u8>) -> Result<(), OutOfMemory> {
    put_word(word, out)?;
    put_each(alloc, pids, out)
}
