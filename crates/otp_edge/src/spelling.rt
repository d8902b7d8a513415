//! What a process of a scope is told, as terms.
ghost use Rattle.std.specs.Prelude.{◌≡◌, ◌<◌, ◌^◌, ◌∷◌, [], ◌++◌, length, map, All, OnOk};
ghost use Rattle.external_terms.specs.Values.{atom_bytes, tuple_head};
ghost use Rattle.otp_edge.specs.Lists.{list_front, listed};
ghost use Rattle.otp_edge.specs.PgMessages.{stated_bytes, pg_bytes, many, terms};
ghost use Rattle.otp_edge.specs.PgMessages.{discover, sync, join, leave};
ghost use Rattle.otp_edge.specs.Processes.{pid_bytes};
ghost use Rattle.otp_edge.specs.Telling.{HasFew, stated_of, pids_of};

use crate::process::pid_term;
use crate::telling::Told;
use dist_types::{OutOfMemory, Pid, Row};
use external_terms::{put_atom, put_list, put_nil, put_pid, put_tuple};

/// Appends `{discover, Own}`. Where memory lacks, it may have appended a part, as each call here.
pub fn put_discover(own: &Pid, out: &mut Vec<u8>) -> Result<(), OutOfMemory>
    ensures { OnOk result (out.new.items ≡ out.old.items ++ pg_bytes (discover own.now)) }
{
    put_head(2, b"discover", out)?;
    put_member(own, out)?;
    Ok(())
}

/// Appends `{'$gen_cast', {sync, Own, [{Group, [Process]}]}}`.
pub fn put_sync(own: &Pid, told: &[Told<'_>], out: &mut Vec<u8>) -> Result<(), OutOfMemory>
    requires few { length told.now < 2 ^ 32 }
    requires each { All HasFew told.now }
    ensures { OnOk result (out.new.items ≡ out.old.items ++
        pg_bytes (sync own.now (map stated_of told.now))) }
{
    put_head(2, b"$gen_cast", out)?;
    put_head(3, b"sync", out)?;
    put_member(own, out)?;
    put_all_stated(told, out)?;
    Ok(())
}

/// Appends `{join, Own, Group, [Process]}`.
pub fn put_join(own: &Pid, told: &Told<'_>, out: &mut Vec<u8>) -> Result<(), OutOfMemory>
    requires { HasFew told.now }
    ensures { OnOk result (out.new.items ≡ out.old.items ++
        pg_bytes (join own.now told.now.group.items (many (pids_of told.now.rows.now)))) }
{
    put_head(4, b"join", out)?;
    put_member(own, out)?;
    out.extend_from_slice(told.group.as_slice())?;
    put_pids(told.rows, out)?;
    Ok(())
}

/// Appends `{leave, Own, [Process], [Group]}`.
pub fn put_leave(own: &Pid, told: &Told<'_>, out: &mut Vec<u8>) -> Result<(), OutOfMemory>
    requires { HasFew told.now }
    ensures { OnOk result (out.new.items ≡ out.old.items ++ pg_bytes (leave own.now
        (many (pids_of told.now.rows.now)) (terms (told.now.group.items ∷ [])))) }
{
    put_head(4, b"leave", out)?;
    put_member(own, out)?;
    put_pids(told.rows, out)?;
    put_list(1, out)?;
    out.extend_from_slice(told.group.as_slice())?;
    put_nil(out)?;
    Ok(())
}

fn put_all_stated(told: &[Told<'_>], out: &mut Vec<u8>) -> Result<(), OutOfMemory>
    requires few { length told.now < 2 ^ 32 }
    requires each { All HasFew told.now }
    ensures { OnOk result (out.new.items ≡ out.old.items ++
        listed stated_bytes (map stated_of told.now)) }
{
    put_front(told.len(), out)?;
    for one in told {
        put_stated(one, out)?;
    }
    put_nil(out)?;
    Ok(())
}

fn put_stated(told: &Told<'_>, out: &mut Vec<u8>) -> Result<(), OutOfMemory>
    requires { HasFew told.now }
    ensures { OnOk result (out.new.items ≡ out.old.items ++ stated_bytes (stated_of told.now)) }
{
    put_tuple(2, out)?;
    out.extend_from_slice(told.group.as_slice())?;
    put_pids(told.rows, out)?;
    Ok(())
}

fn put_pids(rows: &[Row], out: &mut Vec<u8>) -> Result<(), OutOfMemory>
    requires { length rows.now < 2 ^ 32 }
    ensures { OnOk result (out.new.items ≡ out.old.items ++ listed pid_bytes (pids_of rows.now)) }
{
    put_front(rows.len(), out)?;
    for row in rows {
        put_member(&row.pid, out)?;
    }
    put_nil(out)?;
    Ok(())
}

fn put_member(pid: &Pid, out: &mut Vec<u8>) -> Result<(), OutOfMemory>
    ensures { OnOk result (out.new.items ≡ out.old.items ++ pid_bytes pid.now) }
{
    put_pid(&pid_term(pid), out)
}

fn put_front(count: usize, out: &mut Vec<u8>) -> Result<(), OutOfMemory>
    requires { count < 2 ^ 32 }
    ensures { OnOk result (out.new.items ≡ out.old.items ++ list_front count) }
{
    if count == 0 {
        return Ok(());
    }
    put_list(count as u32, out)
}

pub fn put_head(arity: u8, word: &[u8], out: &mut Vec<u8>) -> Result<(), OutOfMemory>
    requires { length word.now < 2 ^ 8 }
    ensures { OnOk result (out.new.items ≡ out.old.items ++ (tuple_head arity ++
        atom_bytes word.now)) }
{
    put_tuple(arity, out)?;
    put_atom(word, out)
}
