//! What each status of a call tells, in words of the files that are held, the meaning of programs and what was written.
ghost use Rattle.parcae.specs.declared.refusal.Source.TheVariants as source;
ghost use Rattle.parcae.specs.Statuses.{OfEachCall, TellsUsage, TellsFault, TellsFailedRead, TellsFailedWrite, TellsLongFile};
ghost use Rattle.parcae.specs.Statuses.{TellsFullLog, TellsMeaning, TellsFront};

use nona_parse::reads_one_tree;
use trial::trial_runs_to_its_end;

/// Says what each exit status tells of every call that answers as `parcae_still` does: of each command, over a shelf that
/// tells what it holds, and a sink that tells what was written. It does nothing when called.
pub fn statuses_tell()
    // 0, 1 and 2 come with the outcome, the store and exactly the text of the program's sequential meaning; of `check` only 0 comes,
    // with exactly the report on the program's loops; of `trial` only 0, with what its program comes to and exactly the summary.
    ensures ended { OfEachCall TellsMeaning }
    // 10 comes exactly where the words are no command.
    ensures usage { OfEachCall TellsUsage }
    // 11 comes with the first fault of the program's text.
    ensures refused { OfEachCall (TellsFault 11 source.Program) }
    // 12 comes with the first fault of the input's text.
    ensures input { OfEachCall (TellsFault 12 source.Input) }
    // 13 comes with the first fault of the script's text.
    ensures script { OfEachCall (TellsFault 13 source.Script) }
    // 14 names the file that couldn't be read.
    ensures failed { OfEachCall TellsFailedRead }
    // 15 has its fault.
    ensures unwritten { OfEachCall TellsFailedWrite }
    // After 15 and 16 outcome and store are both told or neither, by what was written. Of `check` neither is told, and a front of its
    // report was written; of `trial` both are, and a front of its summary was written, but where memory ran out before it, and nothing was
    // written, or where the log is full.
    ensures front { OfEachCall TellsFront }
    // 17 comes only where a file is too long.
    ensures long { OfEachCall TellsLongFile }
    // 18 comes only with a full log.
    ensures full { OfEachCall TellsFullLog }
{
    reads_one_tree();
    trial_runs_to_its_end();
}
