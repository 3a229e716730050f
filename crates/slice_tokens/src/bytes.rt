// How far blanks and words reach at the front of some bytes, and where their line ends.
ghost use Rattle.std.specs.Prelude.{◌≡◌, ◌≤◌, length};
ghost use Rattle.std.specs.List.{prefix_len};
ghost use Rattle.memchr.specs.Find.{IsFirstByte, is_byte};
ghost use Rattle.session_rules.specs.Lines.{is_blank};
ghost use Rattle.slice_tokens.specs.Held.{is_word_byte};

use memchr::memchr;

fn is_blank(b: u8) -> bool
    ensures { result ≡ is_blank b }
{
    b == b' ' || b == b'\t' || b == b'\r'
}

// How many blanks stand at the front.
pub(crate) fn blank_count(bytes: &[u8]) -> usize
    ensures value { result ≡ prefix_len is_blank bytes.now }
    ensures bound { result ≤ length bytes.now }
{
    bytes.iter().take_while(|b| is_blank(**b)).count()
}

// How many bytes of a word stand at the front.
pub(crate) fn word_count(bytes: &[u8]) -> usize
    ensures value { result ≡ prefix_len is_word_byte bytes.now }
    ensures bound { result ≤ length bytes.now }
{
    bytes
        .iter()
        .take_while(|b| !(is_blank(**b) || **b == b'\n'))
        .count()
}

// Where the first line feed stands.
#[inline(always)]
pub(crate) fn find_line_feed(bytes: &[u8]) -> Option<usize>
    ensures { IsFirstByte (is_byte 10) bytes.now result }
{
    if !bytes.is_empty() && bytes[0] == b'\n' {
        return Some(0);
    }
    memchr(b'\n', bytes)
}
