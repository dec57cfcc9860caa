//! The sentences of faults, in lent memory.
ghost use Rattle.std.specs.Prelude.{◌≡◌, ◌⊎◌, ◌+◌, ◌≤◌, ◌++◌, length, take, drop, IfOk, IfErr};
ghost use Rattle.std.specs.Fmt.{decimal};
ghost use Rattle.instants_words.specs.declared.fault.WordsFault.{WordsFault};
ghost use Rattle.instants_faults.specs.ProgramText.{sentence, status_of};
ghost use Rattle.instants_faults.specs.declared.program_fault.ProgramFault.{ProgramFault};
ghost use Rattle.instants_lines.specs.declared.lines_fault.LinesFault.{LinesFault};
ghost use Rattle.instants_lines_memory.specs.FaultText.{sentence as open_sentence, status_of as open_status_of};
ghost use Rattle.instants_lines_memory.specs.declared.open_fault.OpenFault.{OpenFault};
ghost use Rattle.instants_c.specs.Refused.{IsPut};

use instants_lines_memory::OpenFault;
use instants_timeline::ProgramFault;
use instants_words::WordsFault;
use std::alloc::Global;

/// Writes a fault's sentence, as much as there is room for, and gives its status. Where there is no memory for the sentence
/// of a fault that is none of the words, that is the fault.
pub(crate) fn write(alloc: Global, fault: ProgramFault, output: &mut [u8], len: &mut usize) -> u8
    ensures told { (told : ProgramFault) × ((told ≡ fault.entry) ⊎ (told ≡ ProgramFault.Memory))
        × (result ≡ status_of told) × (len.new ≡ length (sentence told))
        × (output.new ≡ take (length output.old) (sentence told)
        ++ drop (length (sentence told)) output.old) }
    ensures words { (wrong : WordsFault) → fault.entry ≡ ProgramFault.Words wrong
        → (result ≡ status_of fault.entry)
        × IsPut (sentence fault.entry) output.old output.new len.new }
{
    if let ProgramFault::Words(wrong) = fault {
        write_words_fault(wrong, output, len);
        return fault.status();
    }
    match fault.to_string(alloc) {
        Ok(sentence) => {
            put(output, sentence.as_bytes(), len);
            fault.status()
        }
        Err(_) => {
            put(output, b"instants: out of memory", len);
            ProgramFault::Memory.status()
        }
    }
}

/// Writes the sentence of why a handle for lines is not opened, as much as there is room for, and gives its status. Where there is
/// no memory for the sentence, that is the fault.
pub(crate) fn write_open_fault(
    alloc: Global,
    fault: OpenFault,
    output: &mut [u8],
    len: &mut usize,
) -> u8
    ensures { (told : OpenFault) × ((told ≡ fault.entry) ⊎ (told ≡ OpenFault.Lines (LinesFault.Program ProgramFault.Memory)))
        × (result ≡ open_status_of told) × IsPut (open_sentence told) output.old output.new len.new }
{
    match fault.to_string(alloc) {
        Ok(sentence) => {
            put(output, sentence.as_bytes(), len);
            fault.status()
        }
        Err(_) => {
            put(output, b"instants-lines: out of memory", len);
            1
        }
    }
}

// Writes the sentence of wrong words, as much as there is room for. It takes no memory.
fn write_words_fault(wrong: WordsFault, output: &mut [u8], len: &mut usize)
    ensures { IsPut (sentence (ProgramFault.Words wrong)) output.old output.new len.new }
{
    match fixed_sentence(wrong) {
        Ok(sentence) => put(output, sentence, len),
        Err(place) => write_source_fault(place, output, len),
    }
}

// The sentence of wrong words, or the place of a source, whose sentence has a number in it.
fn fixed_sentence(wrong: WordsFault) -> Result<&'static [u8], usize>
    ensures ok { IfOk result (λ text. text.now ≡ sentence (ProgramFault.Words wrong)) }
    ensures source { IfErr result (λ place. wrong ≡ WordsFault.Source place) }
{
    match wrong {
        WordsFault::Usage => Ok(b"instants: usage: instants TARGET ASSUMED LIMIT SOURCE..."),
        WordsFault::Target => Ok(b"instants: the target offset must be +HH:MM or -HH:MM"),
        WordsFault::Assumed => Ok(b"instants: the assumed offset must be +HH:MM, -HH:MM or -"),
        WordsFault::Limit => Ok(b"instants: the limit must be a number from 1 to 1048576"),
        WordsFault::Source(place) => Err(place),
        WordsFault::Memory => Ok(b"instants: out of memory"),
    }
}

// Writes that the source in this place is not known.
fn write_source_fault(place: usize, output: &mut [u8], len: &mut usize)
    ensures { IsPut (sentence (ProgramFault.Words (WordsFault.Source place)))
        output.old output.new len.new }
{
    let mut digits = [0u8; 64];
    let start = write_decimal(place as u64, &mut digits);
    let mut text = [0u8; 128];
    let head = append(&mut text, 0, b"instants: source ");
    let number = append(&mut text, head, &digits[start..]);
    let end = append(
        &mut text,
        number,
        b" is not a known source with its description",
    );
    put(output, &text[..end], len);
}

// Writes a number's decimal digits at the end of a place, and gives where they begin.
fn write_decimal(number: u64, digits: &mut [u8; 64]) -> usize
    ensures within { result ≤ 64 }
    ensures value { drop result digits.new ≡ decimal number }
{
    let mut at = 64;
    let mut rest = number;
    while at > 0 {
        at -= 1;
        digits[at] = b'0' + (rest % 10) as u8;
        rest /= 10;
        if rest == 0 {
            break;
        }
    }
    at
}

// Puts bytes into a text, after as many as it has, and gives how many it has then.
fn append(text: &mut [u8; 128], len: usize, bytes: &[u8]) -> usize
    requires { len + length bytes.now ≤ 128 }
    ensures len { result ≡ len + length bytes.now }
    ensures prefix { take result text.new ≡ take len text.old ++ bytes.now }
{
    let end = len + bytes.len();
    text[len..end].copy_from_slice(bytes);
    end
}

// Puts a text into the start of a place, as much as there is room for, and tells its length.
fn put(place: &mut [u8], text: &[u8], len: &mut usize)
    ensures { IsPut text.now place.old place.new len.new }
{
    let count = text.len().min(place.len());
    place[..count].copy_from_slice(&text[..count]);
    *len = text.len();
}
