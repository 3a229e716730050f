// How the ending of a run is told.
ghost use Rattle.std.specs.Prelude.{OnOk, OnErr, false};
ghost use Rattle.std.specs.Io.KnownBytes.{Appends};
ghost use Rattle.outside.specs.Faults.{HasCause};
ghost use Rattle.outside.specs.Streams.{AppendsPart, Becomes};
ghost use Rattle.idrup_cli.specs.Report.{line_of, Reports};

use crate::ending::Ending;
use crate::lines::push_ending;
use crate::text::Line;
use outside::{Failed, Sink, put};

// Writes the line of an ending at once.
fn put_line<E: Sink>(report: &mut E, ending: &Ending) -> Result<(), Failed>
    ensures ok { OnOk result (Appends (E.written report.old) (E.written report.new) (line_of ending.now)) }
    ensures err { OnErr result (AppendsPart (E.written report.old) (E.written report.new) (line_of ending.now)) }
    ensures reopened { OnOk result (Becomes (E.finished report.old) (E.finished report.new) false) }
    ensures cause { HasCause (E.faults report.old) (E.faults report.new) result }
{
    let mut line = Line::new();
    push_ending(&mut line, ending);
    put(report, line.as_slice())?;
    Ok(())
}

// Writes the line of an ending, finishes the report behind a verdict, and answers the status. A verdict that can't be
// told gives 4.
pub(crate) fn tell<E: Sink>(report: &mut E, ending: Ending) -> u8
    ensures { Reports (E.written report.old) (E.written report.new) (E.finished report.old) (E.finished report.new)
        (E.faults report.old) (E.faults report.new) ending result }
{
    let status = ending.status();
    if status > 1 {
        let _ = put_line(report, &ending);
        return status;
    }
    if put_line(report, &ending).is_err() {
        return 4;
    }
    if report.finish().is_err() {
        return 4;
    }
    status
}
