//! Where a description ends.
ghost use Rattle.std.specs.Prelude.{◌≡◌};
ghost use Rattle.description_modifiers.specs.declared.choices.TrailingInput.TheVariants as TrailingInput;

use crate::choices::TrailingInput;

/// The end of the text: `[end]`.
#[derive(Clone, Copy, Debug, PartialEq, Eq)]
pub struct End {
    /// What becomes of text that follows.
    pub trailing_input: TrailingInput,
}

impl Default for End {
    ghost is_default = { λ x. x ≡ record { trailing_input = TrailingInput.Prohibit } };

    fn default() -> End {
        End {
            trailing_input: TrailingInput::Prohibit,
        }
    }
}

impl End {
    /// The same with this treatment of what follows.
    pub fn with_trailing_input(self, trailing_input: TrailingInput) -> End
        ensures value { result ≡ record self { trailing_input = trailing_input } }
    {
        End { trailing_input }
    }
}
