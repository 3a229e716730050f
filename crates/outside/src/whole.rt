// A whole write. A sink may take a part of a piece at a call, so the rest is written again until nothing is left.
ghost use Rattle.std.specs.Prelude.{length, OnOk, OnErr};
ghost use Rattle.std.specs.Io.KnownBytes.{Appends};
ghost use Rattle.outside.specs.Faults.{HasCause};
ghost use Rattle.outside.specs.Streams.{AppendsPart, Reopened};

use crate::{Failed, Sink};

/// Writes all of `bytes`, in as many writes as the sink needs; none where there are no bytes.
///
/// # Errors
///
/// `Failed` comes only where the sink's count of faults rose or stands at its end. Then a first part of the bytes, maybe
/// none, was written.
pub fn put<K: Sink>(sink: &mut K, bytes: &[u8]) -> Result<(), Failed>
    ensures ok { OnOk result (Appends (K.written sink.old) (K.written sink.new) bytes.now) }
    ensures err { OnErr result (AppendsPart (K.written sink.old) (K.written sink.new) bytes.now) }
    ensures reopened { OnOk result (Reopened (K.finished sink.old) (K.finished sink.new) (length bytes.now)) }
    ensures cause { HasCause (K.faults sink.old) (K.faults sink.new) result }
{
    let mut done = 0;
    while done < bytes.len() {
        done += sink.write(&bytes[done..])?;
    }
    Ok(())
}
