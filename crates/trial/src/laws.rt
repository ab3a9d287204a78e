//! Laws of the trials. Each function does nothing when it is called: its contract is the law.

ghost use Rattle.std.specs.Prelude.{◌≡◌, ℕ, ◌≤◌, ℤ, List, [], length};
ghost use Rattle.nona_tree.specs.declared.outcomes.Outcome.TheVariants.{Done};
ghost use Rattle.nona_tree.specs.declared.trees.Program.{Program};
ghost use Rattle.nona_tree.specs.Faults.{faults_of};
ghost use Rattle.nona_tree.specs.Ids.{ids_of};
ghost use Rattle.nona_tree.specs.Run.{meaning_of};
ghost use Rattle.nona_parse.specs.declared.fault.ParseFault.{ParseFault};
ghost use Rattle.nona_parse.specs.Reading.{IsReading, IsRefusedFor};
ghost use Rattle.trial.specs.Numbers.{trial_numbers};
ghost use Rattle.trial.specs.Text.{trial_text};
ghost use Rattle.trial.specs.Tree.{trial_tree};

use nona_grammar::grammar_is_read;
use nona_parse::{reads_one_tree, refuses_for_one_reason};
use nona_tree::state_after;

/// Says that the text of each trial is that of a program of the grammar in which no fault stands, whose tree with ids
/// is the trial's; that the text is no other program; and that no refusal says why it is none.
pub fn trial_is_a_program()
    ensures accepted { (read : Program) × IsReading trial_text read × (faults_of read ≡ []) × (trial_tree ≡ ids_of read) }
    ensures one { (read : Program) → IsReading trial_text read → trial_tree ≡ ids_of read }
    ensures faultless { (read : Program) → IsReading trial_text read → faults_of read ≡ [] }
    ensures unrefused { (fault : ParseFault) → ¬ IsRefusedFor trial_text fault }
{
    grammar_is_read();
    reads_one_tree();
    refuses_for_one_reason();
}

/// Says that the run of the trial's program ends, with no trap and no loop out of turns, whatever numbers the input
/// has, where it has no more of them than the greater array has cells, and each loop may take as many turns. It has
/// then printed 17 numbers. So it ends over the numbers of each trial.
pub fn trial_runs_to_its_end()
    ensures done { (numbers : List ℤ) (turns : ℕ) → length numbers ≤ 32768 → length numbers ≤ turns
        → (meaning_of trial_tree numbers turns).end ≡ Done }
    ensures printed { (numbers : List ℤ) (turns : ℕ) → length numbers ≤ 32768 → length numbers ≤ turns
        → length (meaning_of trial_tree numbers turns).store.printed ≡ 17 }
    ensures each { (n turns : ℕ) → 32768 ≤ turns → (meaning_of trial_tree (trial_numbers n) turns).end ≡ Done }
{
    state_after();
}
