//! Monitors that are moved to the end of a short audit, as no program does: those of a node go to
//! the entry that fetched.
ghost use Rattle.std.specs.Prelude.{◌≡◌, ◌+◌, ◌≤◌, [], ◌∷◌, IfOk, OnOk, IfSome, OnSome, length, Some, None, codes};
ghost use Rattle.group_monitors.specs.Monitors.{monitor_of, HasSeen};

use crate::made::{Process, alone, group_of, pid_of, scope_of};
use dist_types::{Group, GroupChange, Items, OutOfMemory, Pid, Pids, Scope};
use group_monitors::*;
use policy_audit::{Audit, Change, Changes, Event, Rule, Update, Verdict};
use std::alloc::Global;

/// The process of a@h with this number.
fn process(alloc: Global, number: u64) -> Option<Pid> {
    pid_of(
        alloc,
        &Process {
            node: b"a@h",
            creation: 5,
            number,
        },
    )
}

fn pids(alloc: Global, numbers: &[u64]) -> Option<Pids> {
    let mut pids = Vec::new(alloc);
    for number in numbers {
        pids.push(process(alloc, *number)?).ok()?;
    }
    Some(Items::of(pids))
}

/// What changes in a group: these processes leave, and those join.
struct Moves {
    group: &'static [u8],
    left: &'static [u64],
    joined: &'static [u64],
}

/// What an entry changes in a scope.
struct Entered {
    scope: &'static [u8],
    moves: &'static [Moves],
}

const SWAP: Moves = Moves {
    group: b"g",
    left: &[1, 1],
    joined: &[3],
};

const JOIN: Moves = Moves {
    group: b"g",
    left: &[],
    joined: &[1],
};

const LEAVE: Moves = Moves {
    group: b"h",
    left: &[2],
    joined: &[],
};

const LAST: Moves = Moves {
    group: b"g",
    left: &[3],
    joined: &[],
};

/// The first and the fourth change nothing in pg, and the last comes behind an advance.
static ENTERED: [Entered; 6] = [
    Entered {
        scope: b"other",
        moves: &[JOIN],
    },
    Entered {
        scope: b"pg",
        moves: &[SWAP],
    },
    Entered {
        scope: b"pg",
        moves: &[LEAVE],
    },
    Entered {
        scope: b"other",
        moves: &[LEAVE],
    },
    Entered {
        scope: b"pg",
        moves: &[JOIN, LEAVE],
    },
    Entered {
        scope: b"pg",
        moves: &[LAST],
    },
];

fn group_change(alloc: Global, moves: &Moves) -> Option<GroupChange> {
    let left = pids(alloc, moves.left)?;
    let joined = pids(alloc, moves.joined)?;
    match group_of(alloc, moves.group) {
        Some(group) => Some(GroupChange {
            group,
            left,
            joined,
        }),
        None => None,
    }
}

fn group_changes(alloc: Global, moves: &[Moves]) -> Option<Items<GroupChange>> {
    let mut groups = Vec::new(alloc);
    for moved in moves {
        groups.push(group_change(alloc, moved)?).ok()?;
    }
    Some(Items::of(groups))
}

fn change(alloc: Global, entered: &Entered) -> Option<Change> {
    let groups = group_changes(alloc, entered.moves)?;
    match scope_of(alloc, entered.scope) {
        Some(scope) => Some(Change { scope, groups }),
        None => None,
    }
}

/// Makes an entry with these changes.
fn push(audit: &mut Audit, changes: Changes) -> Option<()>
    ensures count { OnSome result (length audit.new.entries ≡ length audit.old.entries + 1) }
    ensures kept { OnSome result (audit.new.forgotten ≡ audit.old.forgotten) }
{
    let verdict = Verdict::Refused(Rule::PidsFull);
    match audit.push(0, Event::Spawn, verdict, changes) {
        Ok(()) => Some(()),
        Err(_) => None,
    }
}

fn enter(alloc: Global, audit: &mut Audit, entered: &Entered) -> Option<()>
    ensures count { OnSome result (length audit.new.entries ≡ length audit.old.entries + 1) }
    ensures kept { OnSome result (audit.new.forgotten ≡ audit.old.forgotten) }
{
    let changes = alone(alloc, change(alloc, entered))?;
    push(audit, Items::of(changes))
}

fn enter_five(alloc: Global, audit: &mut Audit) -> Option<()>
    ensures count { OnSome result (length audit.new.entries ≡ length audit.old.entries + 5) }
    ensures kept { OnSome result (audit.new.forgotten ≡ audit.old.forgotten) }
{
    enter(alloc, audit, &ENTERED[0])?;
    enter(alloc, audit, &ENTERED[1])?;
    enter(alloc, audit, &ENTERED[2])?;
    enter(alloc, audit, &ENTERED[3])?;
    enter(alloc, audit, &ENTERED[4])
}

/// The first five entries.
fn five(alloc: Global) -> Option<Audit>
    ensures count { IfSome result (λ audit. length audit.entries ≡ 5) }
    ensures kept { IfSome result (λ audit. audit.forgotten ≡ 0) }
{
    let mut audit = Audit::new(alloc, 100);
    match enter_five(alloc, &mut audit) {
        Some(()) => Some(audit),
        None => None,
    }
}

/// That processes with these numbers left a group, or joined it.
struct Told {
    leave: bool,
    group: &'static [u8],
    numbers: &'static [u64],
}

fn are_numbers(pids: &[Pid], numbers: &[u64]) -> bool {
    for (pid, number) in pids.iter().zip(numbers) {
        if pid.number != *number {
            return false;
        }
    }
    pids.len() == numbers.len()
}

fn is_update(update: &Update, told: &Told) -> bool {
    update.leave == told.leave
        && update.group.as_bytes() == told.group
        && are_numbers(update.pids.as_slice(), told.numbers)
}

fn are_updates(updates: &[Update], told: &[Told]) -> bool {
    for (update, told) in updates.iter().zip(told) {
        if !is_update(update, told) {
            return false;
        }
    }
    updates.len() == told.len()
}

/// Whether the monitor is told just this.
fn is_told(monitors: &Monitors, audit: &Audit, seat: u32, number: u32, told: &[Told]) -> bool
    requires seen { HasSeen (monitor_of monitors.now seat number) audit.now.entries }
    requires kept { IfSome (monitor_of monitors.now seat number)
        (λ m. audit.now.forgotten ≤ m.place) }
{
    match monitors.updates(seat, number, audit) {
        Ok(updates) => are_updates(updates.as_slice(), told),
        Err(_) => false,
    }
}

/// Seat 0 watches g of pg behind entry 1, seat 1 behind entry 2, and seat 0 all of pg behind
/// entry 3.
fn three(alloc: Global) -> Option<Monitors>
    ensures { IfSome result (λ monitors. monitors ≡
        (1, record { seat = 0; scope = codes "pg"; group = Some (codes "g"); place = 1 })
        ∷ (2, record { seat = 1; scope = codes "pg"; group = Some (codes "g"); place = 2 })
        ∷ (3, record { seat = 0; scope = codes "pg"; group = None; place = 3 }) ∷ []) }
{
    let mut monitors = Monitors::new(alloc);
    match add_three(alloc, &mut monitors) {
        Ok(()) => Some(monitors),
        Err(_) => None,
    }
}

fn add_three(alloc: Global, monitors: &mut Monitors) -> Result<(), OutOfMemory>
    requires { monitors.old ≡ [] }
    ensures { OnOk result (monitors.new ≡
        (1, record { seat = 0; scope = codes "pg"; group = Some (codes "g"); place = 1 })
        ∷ (2, record { seat = 1; scope = codes "pg"; group = Some (codes "g"); place = 2 })
        ∷ (3, record { seat = 0; scope = codes "pg"; group = None; place = 3 }) ∷ []) }
{
    monitors.add_group(0, 1, scope(alloc)?, group(alloc)?)?;
    monitors.add_group(1, 2, scope(alloc)?, group(alloc)?)?;
    monitors.add_scope(0, 3, scope(alloc)?)
}

fn scope(alloc: Global) -> Result<Scope, OutOfMemory>
    ensures { IfOk result (λ scope. scope ≡ codes "pg") }
{
    match Scope::parse(alloc, b"pg") {
        Ok(scope) => Ok(scope),
        Err(_) => Err(OutOfMemory),
    }
}

fn group(alloc: Global) -> Result<Group, OutOfMemory>
    ensures { IfOk result (λ group. group ≡ codes "g") }
{
    match Group::parse(alloc, b"g") {
        Ok(group) => Ok(group),
        Err(_) => Err(OutOfMemory),
    }
}

/// What the monitor of all of pg is told behind entry 3.
static ALL: [Told; 2] = [
    Told {
        leave: false,
        group: b"g",
        numbers: &[1],
    },
    Told {
        leave: true,
        group: b"h",
        numbers: &[2],
    },
];

static LEFT: [Told; 1] = [Told {
    leave: true,
    group: b"g",
    numbers: &[3],
}];

/// Whether the monitor of seat 1 is told nothing after an advance, that of all of pg what it was,
/// and the first what comes then.
fn is_told_after_advance(alloc: Global) -> Option<bool> {
    let mut audit = five(alloc)?;
    let mut monitors = three(alloc)?;
    monitors.advance(1, 2, &audit).ok()?;
    let advances_alone = is_told(&monitors, &audit, 1, 2, &[])
        && is_told(&monitors, &audit, 0, 3, &ALL);
    enter(alloc, &mut audit, &ENTERED[5])?;
    Some(advances_alone && is_told(&monitors, &audit, 1, 2, &LEFT))
}

#[test]
fn advances_one_monitor_alone_and_tells_what_comes_then(rt: HostRuntime) {
    assert!(rt; is_told_after_advance(rt.alloc()) == Some(true));
}
