//! What the code of main statements does.

ghost use Rattle.std.specs.Prelude.{◌≡◌, Bool, List, All};
ghost use Rattle.nona_tree.specs.declared.trees.Loop.{Loop};
ghost use Rattle.nona_tree.specs.declared.trees.Stmt.{Stmt};
ghost use Rattle.nona_tree.specs.Entries.{count_in};
ghost use Rattle.nona_code.specs.Main.{StandsForMain};
ghost use Rattle.nona_code.specs.Rule.{IsSound};
ghost use Rattle.nona_gen.specs.MainCode.{program_code, IsPlain};
ghost use Rattle.nona_gen.specs.Units.{HasCode};

/// Says of the code of main statements, whatever test chooses their regions: that it stands for them, that it keeps the
/// stack rule, and that a statement in which no region stands has the code of a statement. It does nothing when called.
pub fn main_code_stands()
    ensures stands { (chosen : Loop → Bool) → (ss : List Stmt) → All HasCode ss → StandsForMain (program_code chosen ss) chosen ss }
    ensures sound { (chosen : Loop → Bool) → (ss : List Stmt) → All HasCode ss → IsSound (program_code chosen ss) }
    ensures plain { (chosen : Loop → Bool) → (s : Stmt) → count_in chosen s ≡ 0 → IsPlain chosen s }
{}
