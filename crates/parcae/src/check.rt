ghost use Rattle.fate_io.specs.Sending.{sent_since};
ghost use Rattle.parcae.specs.Told.{told_of};
ghost use Rattle.parcae.specs.Ends.{Ends};
ghost use Rattle.parcae.specs.Due.{DueOfCheck};

use crate::report::{Report, bare, once_sent};
use crate::status::Status;
use fate_io::Sink;
use nona_report::send_report;
use nona_stages::regions;
use nona_tree::Checked;
use std::alloc::Global;

/// Writes the report on the loops of a program, and tells that it is done.
pub fn report_loops<K: Sink>(alloc: Global, program: &Checked, out: &mut K) -> Report
    ensures { Ends (DueOfCheck program.now) (sent_since K.written K.faults out.old out.new) (told_of result) }
{
    match regions(alloc, program) {
        Ok(seen) => {
            let sent = send_report(alloc, &seen, out);
            once_sent(sent, bare(alloc, Status::Done))
        }
        Err(_) => bare(alloc, Status::NoMemory),
    }
}
