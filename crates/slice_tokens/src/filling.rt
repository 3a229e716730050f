// Reading on into a buffer that still holds something: that is moved to the front, and the source fills the rest.
ghost use Rattle.std.specs.Prelude.{◌≡◌, ◌+◌, ◌-◌, ◌<◌, ◌≤◌, length, take, IfOk, MatchResult};
ghost use Rattle.std.specs.List.{slice_range};
ghost use Rattle.std.specs.Io.KnownBytes.{Keeps, Consumes, IsAtEnd};
ghost use Rattle.outside.specs.Faults.{HasCause};

use outside::{Failed, Source};

// Moves a part of a buffer to its front.
fn move_to_front(buf: &mut [u8], start: usize, end: usize)
    requires ordered { start ≤ end }
    requires within { end ≤ length buf.old }
    ensures { take (end - start) buf.new ≡ slice_range buf.old start end }
{
    buf.copy_within(start..end, 0);
}

// Reads once into a buffer behind its first `from` bytes.
fn read_behind<S: Source>(src: &mut S, buf: &mut [u8], from: usize) -> Result<usize, Failed>
    requires { from ≤ length buf.old }
    ensures front { take from buf.new ≡ take from buf.old }
    ensures bound { IfOk result (λ n. from + n ≤ length buf.old) }
    ensures taken { MatchResult result
        (λ n. Consumes (S.left src.old) (S.left src.new) (slice_range buf.new from (from + n)))
        (λ _. Keeps (S.left src.old) (S.left src.new)) }
    ensures end { IfOk result (λ n. n ≡ 0 → from < length buf.old → IsAtEnd (S.left src.new)) }
    ensures cause { HasCause (S.faults src.old) (S.faults src.new) result }
{
    src.read(&mut buf[from..])
}

// Moves a part of a buffer to its front, and reads once more behind it.
pub(crate) fn read_more<S: Source>(
    src: &mut S,
    buf: &mut [u8],
    start: usize,
    end: usize,
) -> Result<usize, Failed>
    requires ordered { start ≤ end }
    requires within { end ≤ length buf.old }
    ensures front { take (end - start) buf.new ≡ slice_range buf.old start end }
    ensures bound { IfOk result (λ n. end - start + n ≤ length buf.old) }
    ensures taken { MatchResult result
        (λ n. Consumes (S.left src.old) (S.left src.new) (slice_range buf.new (end - start) (end - start + n)))
        (λ _. Keeps (S.left src.old) (S.left src.new)) }
    ensures end { IfOk result (λ n. n ≡ 0 → end - start < length buf.old → IsAtEnd (S.left src.new)) }
    ensures cause { HasCause (S.faults src.old) (S.faults src.new) result }
{
    move_to_front(buf, start, end);
    read_behind(src, buf, end - start)
}
