//! Laws of the definitions: pieces spell one flow form at most and tokens one tree; a text has one tree
//! at most, the first lines of a text that has a tree have one too, such a text has no fault, and no text
//! has two faults.

ghost use Rattle.std.specs.Prelude.{◌≡◌, ℕ, List, take};
ghost use Rattle.yaml_tokens.specs.declared.piece.Piece.{Piece};
ghost use Rattle.yaml_tokens.specs.declared.token.Token.{Token};
ghost use Rattle.yaml_tree.specs.Flows.{Flow, SpellsFlow};
ghost use Rattle.yaml_tree.specs.Written.{Written, Spells};
ghost use Rattle.yaml_tree.specs.Said.{Said};
ghost use Rattle.yaml_tree.specs.Tree.{Says, IsTree, HasTree, IsTreeOf, IsFaultOf};
ghost use Rattle.yaml_tree.specs.declared.fault.FaultKind.{FaultKind};

/// Pieces spell one flow form at most.
pub fn one_form()
    ensures { (pieces : List Piece) (a b : Flow) → SpellsFlow pieces a → SpellsFlow pieces b → a ≡ b }
{}

/// Tokens spell one tree at most.
pub fn one_writing()
    ensures { (tokens : List Token) (a b : Written) → Spells tokens a → Spells tokens b → a ≡ b }
{}

/// Lines say one tree at most.
pub fn one_tree()
    ensures { (lines : List (List ℕ)) (a b : Said) → Says lines a → Says lines b → a ≡ b }
{}

/// The first lines of lines that have a tree have one too.
pub fn first_lines()
    ensures { (lines : List (List ℕ)) (n : ℕ) (tree : Said) → IsTree lines tree → HasTree (take n lines) }
{}

/// A text that has a tree has no fault.
pub fn no_fault()
    ensures { (text : List ℕ) (tree : Said) (line : ℕ) (kind : FaultKind) → IsTreeOf text tree → IsFaultOf text line kind → ⊥ }
{}

/// A text has one fault at most.
pub fn one_fault()
    ensures { (text : List ℕ) (line other : ℕ) (kind second : FaultKind) → IsFaultOf text line kind → IsFaultOf text other second → (line ≡ other) × (kind ≡ second) }
{}
