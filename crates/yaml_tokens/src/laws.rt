//! Laws of the definitions: a scalar in quotes is read exactly where one is spelled.

ghost use Rattle.std.specs.Prelude.{◌≡◌, ◌↔◌, ℕ, List};
ghost use Rattle.yaml_tokens.specs.Scalars.{scalar_at};
ghost use Rattle.yaml_tokens.specs.Spelling.{IsQuoted};
ghost use Rattle.yaml_tokens.specs.declared.scan.Scan.TheVariants.{Quoted};

/// What is read of a scalar in quotes is a text that is so spelled, and what is so spelled is read.
pub fn quoted_scalars()
    ensures { (bytes text : List ℕ) (len : ℕ) → (scalar_at bytes ≡ Quoted text len) ↔ IsQuoted bytes text len }
{}
