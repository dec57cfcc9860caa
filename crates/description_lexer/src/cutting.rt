//! Parts cut off a text.

ghost use Rattle.std.specs.Prelude.{◌≡◌, take};
ghost use Rattle.std.specs.Str.{IsCharBoundary};
ghost use Rattle.description_lexer.specs.Text.{after, whole};
ghost use Rattle.description_lexer.specs.Views.{rest_of};

use crate::rest::Rest;

/// All of a text.
pub fn whole_of<'a>(text: &'a str) -> Rest<'a>
    ensures value { rest_of result ≡ whole text.now }
{
    let _len = text.len();
    Rest { index: 0, text }
}

/// The first `len` bytes, and what follows them.
pub fn cut<'a>(here: Rest<'a>, len: usize) -> (Rest<'a>, Rest<'a>)
    requires { IsCharBoundary here.text.now len }
    ensures prefix { (rest_of result.0).index ≡ here.entry.index }
    ensures text { (rest_of result.0).text ≡ take len here.entry.text.now }
    ensures back { rest_of result.1 ≡ after len (rest_of here.entry) }
{
    let prefix = Rest {
        index: here.index,
        text: &here.text[..len],
    };
    let back = Rest {
        index: here.index + len,
        text: &here.text[len..],
    };
    (prefix, back)
}
