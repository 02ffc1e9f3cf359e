//! Laws of the definitions: the outline of a text is that of the grammar of pairs.

ghost use Rattle.std.specs.Prelude.{◌≡◌, ◌↔◌, ℕ, List, Ok, Err};
ghost use Rattle.gml_graph.specs.Grammar.{IsFirstFault, Spells};
ghost use Rattle.gml_graph.specs.Outline.{last_line, outline};
ghost use Rattle.gml_graph.specs.Tokens.{tokens};
ghost use Rattle.gml_graph.specs.declared.fault.GmlFault.{GmlFault};
ghost use Rattle.gml_graph.specs.declared.outline.OutlineRow.{OutlineRow};

/// A text has an outline exactly where its tokens spell pairs that have these rows, and a fault
/// exactly where that is the first one of its tokens.
pub fn grammar()
    ensures outline { (text : List ℕ) (rows : List OutlineRow) → (outline text ≡ Ok rows) ↔ Spells (tokens text) rows }
    ensures fault { (text : List ℕ) (fault : GmlFault) → (outline text ≡ Err fault) ↔ IsFirstFault (tokens text) (last_line text) fault }
{}
