//! Laws of the images of programs.

ghost use Rattle.std.specs.Prelude.{◌≡◌, List};
ghost use Rattle.nona_tree.specs.declared.trees.Program.{Program};
ghost use Rattle.nona_tree.specs.Checking.{IsChecked};
ghost use Rattle.nona_tree.specs.Entries.{is_among, regions_all};
ghost use Rattle.nona_code.specs.declared.instr.Instr.{Instr};
ghost use Rattle.nona_code.specs.Main.{StandsForMain};
ghost use Rattle.nona_stages.specs.declared.seen.Seen.{Seen};
ghost use Rattle.nona_stages.specs.Seen.{seen_of, seen_places};
ghost use Rattle.morta_task.specs.ImageKept.{CanRun};
ghost use Rattle.nona_gen.specs.OfSeen.{image_by, planned_image, AreCalm};

use nona_stages::regions_are_planned;
use nona_tree::{checked_is_scoped, regions_have_places, regions_keep};

/// Says that the regions which are seen of a checked program make an image of it, with any code that stands for its main
/// statements. It does nothing when called.
pub(crate) fn images_keep()
    ensures { (p : Program) (all : List Seen) (code : List Instr) → IsChecked p → StandsForMain code (is_among (seen_places all)) p.body
        → CanRun code (image_by p all) }
{
    checked_is_scoped();
    regions_keep();
    regions_have_places();
}

/// Says of what is seen of a checked program by the plans of its loops: the regions are calm, and its image is that by these
/// plans. It does nothing when called.
pub(crate) fn seen_is_planned()
    ensures calm { (p : Program) → IsChecked p → AreCalm (regions_all (is_among (seen_places (seen_of p))) p.body) }
    ensures image { (p : Program) → IsChecked p → image_by p (seen_of p) ≡ planned_image p }
{
    regions_are_planned();
}
