//! How deep a line begins.
ghost use Rattle.std.specs.Prelude.{◌≡◌, ◌≤◌, ◌==◌, ◌||◌, not, position, take, length};
ghost use Rattle.base.specs.Bytes.{space, tab};
ghost use Rattle.instants_lines.specs.Going.{depth, margin};

// Bytes of a line among which its white space is looked at.
const WINDOW: usize = 256;

// The first bytes of a line.
#[inline(always)]
#[tactic(auto, using(std::proofs::lemmas::List::take_min))]
fn first_bytes(line: &[u8]) -> &[u8]
    ensures bytes { result.now ≡ take 256 line.now }
    ensures few { length result.now ≤ 256 }
{
    &line[..WINDOW.min(line.len())]
}

// Where the first byte stands that is no space and no tab.
fn margin_len(bytes: &[u8]) -> Option<usize>
    ensures { result ≡ position (λ byte. not (byte == space || byte == tab)) bytes.now }
{
    bytes
        .iter()
        .position(|byte| *byte != b' ' && *byte != b'\t')
}

// The spaces and tabs before it, of the first bytes of a line.
fn margin(line: &[u8]) -> &[u8]
    ensures bytes { result.now ≡ margin (take 256 line.now) }
    ensures few { length result.now ≤ 256 }
{
    let near = first_bytes(line);
    match margin_len(near) {
        Some(len) => &near[..len],
        None => near,
    }
}

/// How deep a line begins, in steps of two columns of white space; a tab is eight columns.
#[tactic(auto, unfolding(crate::specs::Going::depth))]
pub(crate) fn depth(line: &[u8]) -> usize
    ensures { result ≡ depth line.now }
{
    let margin = margin(line);
    let tabs = margin.iter().filter(|byte| **byte == b'\t').count();
    (margin.len() + 7 * tabs) / 2
}
