//! How serving ends, once sessions were started.
ghost use Rattle.std.specs.Prelude.{◌≡◌, ◌≤◌, OnOk, IfErr, IsOk};
ghost use Rattle.std.specs.Io.KnownBytes.{Appends};
ghost use Rattle.ledger_serve.specs.Lines.{sessions_line};
ghost use Rattle.ledger_serve.specs.Ending.{FinishFails};

use crate::lines::write_sessions;
use ledger_codec::Sink;
use ledger_program::RunFault;
use session_spawner::Spawner;
use std::sync::Wait;
use std::thread::Threads;

/// Joins the sessions that were started, and where these are all writes how many there were.
pub(crate) fn finish<R: Threads + Wait, Sp: Spawner, K: Sink>(
    rt: &R,
    started: Result<(), RunFault>,
    count: u64,
    spawner: &mut Sp,
    out: &mut K,
) -> Result<(), RunFault>
    requires { OnOk started (Sp.started spawner.old ≡ count) }
    ensures all { OnOk result (IsOk started) }
    ensures started { OnOk result (Sp.started spawner.new ≡ count) }
    ensures joined { OnOk result (Sp.joined spawner.new ≡ count) }
    ensures wrote { OnOk result (Appends (K.written out.old) (K.written out.new) (sessions_line count)) }
    ensures fails { IfErr result (FinishFails started count (K.written out.old) (K.written out.new)
        (K.faults out.old) (K.faults out.new)) }
    ensures later { K.faults out.old ≤ K.faults out.new }
{
    spawner.join_all(rt);
    match started {
        Ok(()) => write_sessions(spawner, count, out),
        Err(fault) => Err(fault),
    }
}
