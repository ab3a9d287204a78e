ghost use Rattle.std.specs.Prelude.{◌≡◌};
ghost use Rattle.parcae.specs.Told.{status_of, told_of, ran_of, bare, logged, finished, broken_status, once_sent};

use crate::status::Status;
use fate_io::SendFault;
use morta_task::Log;
use nona_store::{Ended, Store};
use nona_tree::Outcome;
use std::alloc::Global;

/// What a call tells beside the text that it writes.
///
/// The outcome and the store are there after a run that ended and whose numbers were written, also where what stands behind
/// them was broken off. The log has the intervals that were logged, up to the end or the fault.
#[derive(Drop)]
pub struct Report {
    pub status: Status,
    pub outcome: Option<Outcome>,
    pub store: Option<Store>,
    pub log: Log,
}

/// A report of nothing but its status.
pub fn bare(alloc: Global, status: Status) -> Report
    ensures { told_of result ≡ bare status }
{
    logged(status, Log::new(alloc))
}

/// A report of nothing but its status and a log.
pub fn logged(status: Status, log: Log) -> Report
    ensures { told_of result ≡ logged status log }
{
    Report {
        status,
        outcome: None,
        store: None,
        log,
    }
}

/// The status of a run that ended so.
fn status_of(outcome: Outcome) -> Status
    ensures { result ≡ status_of outcome }
{
    match outcome {
        Outcome::Done => Status::Done,
        Outcome::Trap(_) => Status::Trap,
        Outcome::OutOfTurns { .. } => Status::OutOfTurns,
    }
}

/// The report of a run that ended, with its log.
pub fn finished(run: Ended, log: Log) -> Report
    ensures { told_of result ≡ finished (ran_of run) log }
{
    Report {
        status: status_of(run.outcome),
        outcome: Some(run.outcome),
        store: Some(run.store),
        log,
    }
}

/// The status of a call that a fault broke off.
pub fn broken_status(fault: SendFault) -> Status
    ensures { result ≡ broken_status fault }
{
    match fault {
        SendFault::WriteFailed => Status::WriteFailed,
        SendFault::NoMemory => Status::NoMemory,
    }
}

/// A report, once what stands behind the printed numbers was sent with this result: a fault changes its status alone.
pub fn once_sent(sent: Result<(), SendFault>, report: Report) -> Report
    ensures { told_of result ≡ once_sent sent (told_of report) }
{
    match sent {
        Ok(()) => report,
        Err(fault) => Report {
            status: broken_status(fault),
            outcome: report.outcome,
            store: report.store,
            log: report.log,
        },
    }
}
