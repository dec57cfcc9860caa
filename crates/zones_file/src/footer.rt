//! Footers: the text of the rule for what comes after the last transition.
ghost use Rattle.std.specs.Prelude.{◌≡◌, ◌<◌, ◌==◌, IfOk, IfSome, Some, length, option_map, position};
ghost use Rattle.std.specs.Result.{result_err};
ghost use Rattle.zones_rule.specs.Grammar.{footer_view};
ghost use Rattle.zones_rule.specs.Offsets.{AreOffsets};
ghost use Rattle.zones_file.specs.Faults.{text_fault};
ghost use Rattle.zones_file.specs.Layout.{IsLaidOut};
ghost use Rattle.zones_file.specs.Footer.{up_to_line_feed, line_of, footer_text, footer_of, footer_in};

use crate::fault::ZoneFault;
use crate::layout::Layout;
use zones_rule::{Footer, read_rule};

// The place of the first line feed.
fn find_line_feed(bytes: &[u8]) -> Option<usize>
    ensures place { result ≡ position (λ byte. byte == 10) bytes.now }
    ensures within { IfSome result (λ place. place < length bytes.now) }
{
    bytes.iter().position(|byte| *byte == b'\n')
}

// What stands before the first line feed.
fn up_to_line_feed(bytes: &[u8]) -> Option<&[u8]>
    ensures { option_map (λ line. line.now) result ≡ up_to_line_feed bytes.now }
{
    let length = find_line_feed(bytes)?;
    Some(&bytes[..length])
}

// What stands between two line feeds, of which the first is the first byte.
#[tactic(auto, unfolding(crate::specs::Footer::line_of))]
fn read_line(footer: &[u8]) -> Option<&[u8]>
    ensures { option_map (λ line. line.now) result ≡ line_of footer.now }
{
    match footer {
        [b'\n', rest @ ..] => up_to_line_feed(rest),
        _ => None,
    }
}

// The text of a rule, which is empty where there is none.
fn footer_text(bytes: &[u8], layout: Layout) -> Option<&[u8]>
    requires { IsLaidOut layout (length bytes.now) }
    ensures { option_map (λ text. text.now) result ≡ footer_text bytes.now layout }
{
    if layout.time_size == 4 {
        Some(&[])
    } else {
        read_line(&bytes[layout.end..])
    }
}

// The rule of a text, if it is not empty.
fn read_text(text: &[u8]) -> Result<Option<Footer<'_>>, ZoneFault>
    ensures footer { IfOk result (λ footer. option_map footer_view footer ≡ footer_of (Some text.now)) }
    ensures fault { result_err result ≡ text_fault (Some text.now) }
    ensures offsets { IfOk result (λ footer. IfSome footer (λ f. AreOffsets f.rule)) }
{
    if text.is_empty() {
        return Ok(None);
    }
    match read_rule(text) {
        Some(footer) => Ok(Some(footer)),
        None => Err(ZoneFault::Footer),
    }
}

// The rule of a file, if it has one.
pub(crate) fn read_footer(bytes: &[u8], layout: Layout) -> Result<Option<Footer<'_>>, ZoneFault>
    requires { IsLaidOut layout (length bytes.now) }
    ensures footer { IfOk result (λ footer. option_map footer_view footer ≡ footer_in bytes.now layout) }
    ensures fault { result_err result ≡ text_fault (footer_text bytes.now layout) }
    ensures offsets { IfOk result (λ footer. IfSome footer (λ f. AreOffsets f.rule)) }
{
    match footer_text(bytes, layout) {
        Some(text) => read_text(text),
        None => Err(ZoneFault::Footer),
    }
}
