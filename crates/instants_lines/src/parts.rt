//! Parts of a line, written one after the other.
ghost use Rattle.std.specs.Prelude.{◌≡◌, ◌≤◌, [], ◌∷◌, ◌++◌, length, option_map, false};
ghost use Rattle.base.specs.Bytes.{tab, line_feed};
ghost use Rattle.instants_lines.specs.Going.{label_prefix};
ghost use Rattle.instants_lines.specs.Wrote.{Wrote};

use instants_answers::Answer;
use instants_stream::{ByteWriter, DeviceFailed};

/// Writes two parts.
#[inline(always)]
#[tactic(auto, using(crate::proofs::Turns::in_turn))]
pub(crate) fn write_both<W: ByteWriter>(
    writer: &mut W,
    first: &[u8],
    second: &[u8],
) -> Result<(), DeviceFailed>
    requires { W.failed writer.old ≡ false }
    ensures { Wrote W.ByteWriter writer.old writer.new result (first.now ++ second.now) }
{
    writer.write_all(first)?;
    writer.write_all(second)
}

/// Writes three parts.
#[inline(always)]
#[tactic(auto, using(crate::proofs::Turns::in_turn))]
pub(crate) fn write_three<W: ByteWriter>(
    writer: &mut W,
    first: &[u8],
    second: &[u8],
    third: &[u8],
) -> Result<(), DeviceFailed>
    requires { W.failed writer.old ≡ false }
    ensures { Wrote W.ByteWriter writer.old writer.new result
        (first.now ++ (second.now ++ third.now)) }
{
    writer.write_all(first)?;
    write_both(writer, second, third)
}

// Writes a label and a tab, where there is one. It is looked at where it is written, so that it takes no register before.
#[inline(always)]
fn write_label<W: ByteWriter>(writer: &mut W, label: &Option<&str>) -> Result<(), DeviceFailed>
    requires { W.failed writer.old ≡ false }
    ensures { Wrote W.ByteWriter writer.old writer.new result
        (label_prefix (option_map (λ text. text.now) label.now)) }
{
    match label {
        Some(text) => write_both(writer, text.as_bytes(), b"\t"),
        None => Ok(()),
    }
}

/// Writes a part, and a line after its label.
#[tactic(auto, using(crate::proofs::Turns::in_turn))]
pub(crate) fn write_labelled<W: ByteWriter>(
    writer: &mut W,
    part: &[u8],
    label: &Option<&str>,
    line: &[u8],
) -> Result<(), DeviceFailed>
    requires { W.failed writer.old ≡ false }
    ensures { Wrote W.ByteWriter writer.old writer.new result
        (part.now ++ (label_prefix (option_map (λ text. text.now) label.now) ++ line.now)) }
{
    writer.write_all(part)?;
    write_label(writer, label)?;
    writer.write_all(line)
}

/// An answer and a tab.
#[inline(always)]
pub(crate) fn tabbed(answer: Answer) -> Answer
    requires { length answer ≤ 63 }
    ensures { result ≡ answer ++ tab ∷ [] }
{
    let mut tabbed = answer;
    tabbed.push(b'\t');
    tabbed
}

// Writes a line and a line feed.
#[inline(always)]
#[tactic(auto, using(crate::proofs::Turns::in_turn))]
fn write_fed<W: ByteWriter>(writer: &mut W, line: &[u8]) -> Result<(), DeviceFailed>
    requires { W.failed writer.old ≡ false }
    ensures { Wrote W.ByteWriter writer.old writer.new result (line.now ++ line_feed ∷ []) }
{
    writer.write_all(line)?;
    writer.write_byte(b'\n')
}

// The same after a label; a line without one has a way of its own.
#[inline(always)]
#[tactic(auto, using(crate::proofs::Turns::in_turn, std::proofs::lemmas::List::append_assoc))]
fn write_labelled_line<W: ByteWriter>(
    writer: &mut W,
    label: &Option<&str>,
    line: &[u8],
) -> Result<(), DeviceFailed>
    requires { W.failed writer.old ≡ false }
    ensures { Wrote W.ByteWriter writer.old writer.new result
        (label_prefix (option_map (λ text. text.now) label.now) ++ (line.now ++ line_feed ∷ [])) }
{
    match label {
        Some(_) => {
            write_label(writer, label)?;
            write_fed(writer, line)
        }
        None => write_fed(writer, line),
    }
}

/// Writes an answer, a line after its label, and a line feed.
#[inline(always)]
#[tactic(auto, using(crate::proofs::Turns::in_turn))]
pub(crate) fn write_keyed<W: ByteWriter>(
    writer: &mut W,
    answer: &Answer,
    label: &Option<&str>,
    line: &[u8],
) -> Result<(), DeviceFailed>
    requires works { W.failed writer.old ≡ false }
    requires room { length answer.now ≤ 64 }
    ensures { Wrote W.ByteWriter writer.old writer.new result
        (answer.now ++ (label_prefix (option_map (λ text. text.now) label.now) ++ (line.now ++ line_feed ∷ []))) }
{
    let (bytes, len) = answer.padded();
    writer.write_prefix(bytes, len)?;
    write_labelled_line(writer, label, line)
}
