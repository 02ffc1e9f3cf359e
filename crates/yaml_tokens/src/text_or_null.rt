//! What a scalar says.

ghost use Rattle.std.specs.Prelude.{◌≡◌, Some, None};
ghost use Rattle.yaml_tokens.specs.inside.Kept.{bytes_in};

use crate::kept::Kept;
use crate::scalar::Scalar;
use std::marker::Model;

/// A text, or null: what a scalar says that is no key. It takes no more room than a text.
#[derive(Drop)]
pub struct TextOrNull {
    kept: Kept,
}

impl Model for TextOrNull {
    ghost use Rattle.std.specs.Prelude.{List, ℕ, Option};

    ghost Value = { Option (List ℕ) };

    ghost use Rattle.yaml_tokens.specs.inside.Kept.{text_of};

    ghost view = { λ t. text_of t.kept };
}

impl TextOrNull {
    pub fn null() -> TextOrNull
        ensures { result ≡ None }
    {
        TextOrNull {
            kept: Kept::Nothing,
        }
    }

    pub fn text(text: Scalar) -> TextOrNull
        ensures { result ≡ Some text }
    {
        TextOrNull {
            kept: text.into_kept(),
        }
    }

    pub fn into_text(self) -> Option<Scalar>
        ensures { result ≡ self }
    {
        let TextOrNull { kept } = self;
        match kept {
            Kept::Nothing => None,
            kept => Some(Scalar::of(kept)),
        }
    }

    /// The text, which is empty for null.
    pub(crate) fn or_empty(self) -> Scalar
        ensures { result ≡ bytes_in self }
    {
        let TextOrNull { kept } = self;
        Scalar::of(kept)
    }
}
