//! The grammar: which tokens are which program.
//!
//! `specs/Grammar.antt` states it as relations between tokens and trees. `specs/Machine.antt` reads tokens once from
//! left to right. `specs/Faults.antt` says where tokens stop being a program. The functions do nothing when they are
//! called: their contracts are the laws of the three.
#![tactic(auto)]

ghost use Rattle.std.specs.Prelude.{◌≡◌, ◌≤◌, ℕ, List, [], ◌∷◌, length, Ok, Err};
ghost use Rattle.nona_lex.specs.declared.bounds.TheConstants.{BRACKETS};
ghost use Rattle.nona_lex.specs.Bounds.{bounded, tokens_of};
ghost use Rattle.nona_lex.specs.Laws.{AreI64Tokens};
ghost use Rattle.nona_lex.specs.declared.tokens.Spot.{Spot};
ghost use Rattle.nona_lex.specs.declared.tokens.Tokens.{Tokens};
ghost use Rattle.nona_tree.specs.Numbers.{IsI64Program};
ghost use Rattle.nona_tree.specs.Places.{AreRising, HasOwnPlaces};
ghost use Rattle.nona_tree.specs.Smallness.{size_of, nesting_of};
ghost use Rattle.nona_tree.specs.declared.trees.Program.{Program};
ghost use Rattle.nona_grammar.specs.Faults.{FaultAt};
ghost use Rattle.nona_grammar.specs.Grammar.{IsProgram};
ghost use Rattle.nona_grammar.specs.Machine.{built};
ghost use Rattle.nona_grammar.specs.Places.{token_places};
ghost use Rattle.nona_grammar.specs.Stack.{Trees, whole_of};

/// The machine reads exactly the programs of the grammar, so no list of tokens is two programs.
pub fn grammar_is_read()
    ensures complete { (end : ℕ) (ss : List Spot) (p : Program) → IsProgram ss p → built end ss ≡ Ok (whole_of p) }
    ensures sound { (end : ℕ) (ss : List Spot) (out : Trees) → built end ss ≡ Ok out → (p : Program) × IsProgram ss p × (out ≡ whole_of p) }
    ensures one_tree { (ss : List Spot) (p q : Program) → IsProgram ss p → IsProgram ss q → p ≡ q }
{}

/// Where the machine is stuck, the tokens before can still become a program, and with the one there they can't.
pub fn fault_is_exact()
    ensures { (end : ℕ) (ss : List Spot) (at : ℕ) → built end ss ≡ Err at → FaultAt end ss at }
{}

/// A program has no more declarations, statements and expressions than tokens, since each has a token of its own. Its
/// blocks are nested no deeper than brackets may be open, where the tokens end before one bracket too many.
pub fn programs_are_small()
    ensures size { (ss : List Spot) (p : Program) → IsProgram ss p → size_of p ≤ length ss }
    ensures nesting { (tokens : Tokens) (p : Program) → IsProgram (bounded tokens).spots p → nesting_of p ≤ BRACKETS }
{}

/// The numbers of a program have 64 bits where those of its tokens do.
pub fn programs_are_i64()
    ensures { (ss : List Spot) (p : Program) → IsProgram ss p → AreI64Tokens ss → IsI64Program p }
{}

/// The tokens of a text stand one behind another. Where tokens do, the words `for` of the program that they are do so too.
pub fn programs_have_places()
    ensures rising { (text : List ℕ) → AreRising (token_places (tokens_of text).spots) }
    ensures places { (ss : List Spot) (p : Program) → IsProgram ss p → AreRising (token_places ss) → HasOwnPlaces p }
{}
