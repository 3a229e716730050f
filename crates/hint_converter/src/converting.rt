// The conversion, line by line. Each line of the source is read and judged, and the line of its step is written; so the first fault of
// the source that is met is the first of all, and the conversion ends with it.

ghost use Rattle.std.specs.Prelude.{◌≡◌, ℕ, ◌+◌, ◌<◌, ◌≤◌, ◌^◌, List, Option, Some, Err, codes, IsTrue, IfOk, IfNone, IfErr, IsErrOf};
ghost use Rattle.outside.specs.Faults.{Rose};
ghost use Rattle.slice_tokens.specs.Place.{ahead, WhereTold};
ghost use Rattle.slice_tokens.specs.Calls.{Moves};
ghost use Rattle.pair_matcher.specs.Checks.{IsBehindHeader};
ghost use Rattle.hint_converter.specs.Targets.{Ends};
ghost use Rattle.session_rules.specs.declared.Step.{Step};
ghost use Rattle.session_rules.specs.History.{phase};
ghost use Rattle.session_rules.specs.Own.{events_of};
ghost use Rattle.pair_matcher.specs.Sides.{StandsFor};
ghost use Rattle.hint_converter.specs.Turns.{AtLine, AtStep, Converting, Turns, end_of};

use icnf_lines::{HeaderFault, read_header, write_header};
use line_reading::Spare;
use outside::{Sink, Source};
use pair_matcher::{Converted, IdrupSide};
use session_rules::{LStep, LineFault, Rule, Step, WriteFault};
use slice_tokens::Window;
use std::alloc::Global;

// How many bytes of a proof are read, and so how many are written, at most.
const MOST_BYTES: u64 = 1 << 62;

/// How a conversion ends that met no fault outside: the target is written, in so many lines behind its header, or the source breaks
/// this rule by itself at this line, or has an open query at its end.
#[derive(Clone, Copy, Debug, PartialEq, Eq)]
pub enum ConvertEnd {
    Done { lines: u64 },
    Refused { line: u64, rule: Rule },
}

/// Why a conversion didn't end: a read or a write failed, the next line would make the target longer than the 2^62 bytes that are
/// read of a proof, or it is out of memory.
#[derive(Clone, Copy, Debug, PartialEq, Eq)]
pub enum ConvertFault {
    Read = 1,
    Write = 2,
    Exhausted = 3,
    Memory = 4,
}

/// What a conversion is made of: the side that judges the source, a window over it, the memory for the list of the next line, how
/// many bytes the target may still have, and how many lines it has behind its header.
#[derive(Drop)]
struct Conversion {
    side: IdrupSide,
    window: Window,
    spare: Spare,
    room: u64,
    lines: u64,
}

/// Writes the line of a step that was judged.
fn put_line<K: Sink>(
    c: &mut Conversion,
    sink: &mut K,
    line: &LStep,
) -> Result<Option<ConvertEnd>, ConvertFault>
    requires lines { c.old.lines < 2 ^ 63 }
    ensures side { c.new.side ≡ c.old.side }
    ensures place { c.new.window ≡ c.old.window }
    ensures lines { c.new.lines ≤ c.old.lines + 1 }
    ensures told { (before : Option (List ℕ)) → (source rest : List ℕ) → AtLine line.now c.old.side c.old.room c.old.lines before (K.written sink.old) c.old.window source rest
        → Turns result c.new.side c.new.room c.new.lines before (K.written sink.new) c.new.window source rest }
    ensures count { K.faults sink.old ≤ K.faults sink.new }
    ensures write { IsErrOf result ConvertFault.Write → Rose (K.faults sink.old) (K.faults sink.new) }
    ensures read { IsErrOf result ConvertFault.Read → ⊥ }
{
    match lidrup_lines::write_line(sink, &mut c.room, line) {
        Ok(()) => {
            c.lines += 1;
            Ok(None)
        }
        Err(WriteFault::Write) => Err(ConvertFault::Write),
        Err(WriteFault::Exhausted) => Err(ConvertFault::Exhausted),
    }
}

/// Judges a step that was read, and writes its line.
fn take_step<K: Sink>(
    c: &mut Conversion,
    sink: &mut K,
    step: &Step,
) -> Result<Option<ConvertEnd>, ConvertFault>
    requires live { IsTrue c.old.side.live }
    requires next { c.old.side.next < 2 ^ 63 }
    requires lines { c.old.lines < 2 ^ 63 }
    ensures live { IfOk result (λ v. IfNone v (IsTrue c.new.side.live)) }
    ensures next { c.new.side.next ≤ c.old.side.next + 1 }
    ensures place { c.new.window ≡ c.old.window }
    ensures lines { c.new.lines ≤ c.old.lines + 1 }
    ensures told { (before : Option (List ℕ)) → (source rest : List ℕ) → AtStep step.now c.old.side c.old.room c.old.lines before (K.written sink.old) c.old.window source rest
        → Turns result c.new.side c.new.room c.new.lines before (K.written sink.new) c.new.window source rest }
    ensures count { K.faults sink.old ≤ K.faults sink.new }
    ensures write { IsErrOf result ConvertFault.Write → Rose (K.faults sink.old) (K.faults sink.new) }
    ensures read { IsErrOf result ConvertFault.Read → ⊥ }
{
    match c.side.step_with(step) {
        Ok(Converted::Line(line)) => match put_line(c, sink, &line) {
            Ok(answer) => Ok(answer),
            Err(fault) => Err(fault),
        },
        Ok(Converted::Broken(rule)) => Ok(Some(refused(c.window.line(), rule))),
        Err(_) => Err(ConvertFault::Memory),
    }
}

/// A refusal.
fn refused(line: u64, rule: Rule) -> ConvertEnd
    ensures { result ≡ ConvertEnd.Refused line rule }
{
    ConvertEnd::Refused { line, rule }
}

/// How the conversion ends at the end of the source.
fn end(c: &Conversion) -> ConvertEnd
    ensures { (ps : List Step) → StandsFor c.now.side ps → result ≡ end_of (phase (events_of ps)) c.now.window.line c.now.lines }
{
    match c.side.finish() {
        Some(rule) => refused(c.window.line(), rule),
        None => ConvertEnd::Done { lines: c.lines },
    }
}

/// Takes the source's next line.
fn turn<S: Source, K: Sink>(
    c: &mut Conversion,
    source: &mut S,
    sink: &mut K,
) -> Result<Option<ConvertEnd>, ConvertFault>
    requires live { IsTrue c.old.side.live }
    requires next { c.old.side.next < 2 ^ 63 }
    requires lines { c.old.lines < 2 ^ 63 }
    ensures live { IfOk result (λ v. IfNone v (IsTrue c.new.side.live)) }
    ensures next { c.new.side.next ≤ c.old.side.next + 1 }
    ensures lines { c.new.lines ≤ c.old.lines + 1 }
    ensures moves { Moves c.old.window c.new.window }
    ensures progress { IfOk result (λ v. IfNone v (c.old.window.passed < c.new.window.passed)) }
    ensures told { (whole before : Option (List ℕ))
        → WhereTold whole (ahead c.old.window (S.left source.old)) (Converting c.old.side c.old.room c.old.lines before (K.written sink.old) c.old.window)
        → WhereTold whole (ahead c.new.window (S.left source.new)) (Turns result c.new.side c.new.room c.new.lines before (K.written sink.new) c.new.window) }
    ensures source_count { S.faults source.old ≤ S.faults source.new }
    ensures sink_count { K.faults sink.old ≤ K.faults sink.new }
    ensures read { IsErrOf result ConvertFault.Read → Rose (S.faults source.old) (S.faults source.new) }
    ensures write { IsErrOf result ConvertFault.Write → Rose (K.faults sink.old) (K.faults sink.new) }
{
    match idrup_lines::read_line(&mut c.spare, &mut c.window, source) {
        Ok(Some(step)) => match take_step(c, sink, &step) {
            Ok(answer) => Ok(answer),
            Err(fault) => Err(fault),
        },
        Ok(None) => Ok(Some(end(c))),
        Err(LineFault::Syntax(rule)) => Ok(Some(refused(c.window.line(), rule))),
        Err(LineFault::Read) => Err(ConvertFault::Read),
        Err(LineFault::Memory) => Err(ConvertFault::Memory),
    }
}

/// Takes the lines of the source.
fn convert_lines<S: Source, K: Sink>(
    c: &mut Conversion,
    source: &mut S,
    sink: &mut K,
) -> Result<ConvertEnd, ConvertFault>
    requires live { IsTrue c.old.side.live }
    requires next { c.old.side.next ≤ 1 + c.old.window.passed }
    requires lines { c.old.lines ≤ c.old.window.passed }
    requires bound { c.old.window.passed ≤ 2 ^ 62 }
    ensures told { (whole before : Option (List ℕ))
        → WhereTold whole (ahead c.old.window (S.left source.old)) (Converting c.old.side c.old.room c.old.lines before (K.written sink.old) c.old.window)
        → WhereTold whole (ahead c.new.window (S.left source.new)) (λ bytes rest. Ends result before (K.written sink.new) bytes) }
    ensures source_count { S.faults source.old ≤ S.faults source.new }
    ensures sink_count { K.faults sink.old ≤ K.faults sink.new }
    ensures read { IsErrOf result ConvertFault.Read → Rose (S.faults source.old) (S.faults source.new) }
    ensures write { IsErrOf result ConvertFault.Write → Rose (K.faults sink.old) (K.faults sink.new) }
{
    'lines: loop {
        match turn(c, source, sink) {
            Ok(None) => {}
            Ok(Some(end)) => return Ok(end),
            Err(fault) => return Err(fault),
        }
    }
}

/// The conversion of a source behind its header, where this window stands. It writes the target's header.
fn begin<K: Sink>(alloc: Global, window: Window, sink: &mut K) -> Result<Conversion, ConvertFault>
    ensures live { IfOk result (λ c. IsTrue c.side.live) }
    ensures next { IfOk result (λ c. c.side.next ≤ 1) }
    ensures lines { IfOk result (λ c. c.lines ≡ 0) }
    ensures place { IfOk result (λ c. c.window ≡ window) }
    ensures told { IfOk result (λ c. (source rest : List ℕ) → IsBehindHeader (codes "idrup") source window rest
        → Converting c.side c.room c.lines (K.written sink.old) (K.written sink.new) window source rest) }
    ensures fault { IfErr result (λ f. (source rest : List ℕ) → IsBehindHeader (codes "idrup") source window rest
        → Ends (Err f) (K.written sink.old) (K.written sink.new) source) }
    ensures count { K.faults sink.old ≤ K.faults sink.new }
    ensures write { IsErrOf result ConvertFault.Write → Rose (K.faults sink.old) (K.faults sink.new) }
    ensures read { IsErrOf result ConvertFault.Read → ⊥ }
{
    let Ok(side) = IdrupSide::new(alloc) else {
        return Err(ConvertFault::Memory);
    };
    let mut room = MOST_BYTES;
    match write_header(sink, &mut room, b"lidrup") {
        Ok(()) => {}
        Err(WriteFault::Write) => return Err(ConvertFault::Write),
        Err(WriteFault::Exhausted) => return Err(ConvertFault::Exhausted),
    }
    Ok(Conversion {
        side,
        window,
        spare: Spare::new(alloc),
        room,
        lines: 0,
    })
}

/// Converts a source behind its header, where this window stands.
fn convert_behind<S: Source, K: Sink>(
    alloc: Global,
    window: Window,
    source: &mut S,
    sink: &mut K,
) -> Result<ConvertEnd, ConvertFault>
    requires bound { window.passed ≤ 2 ^ 62 }
    ensures told { (whole : Option (List ℕ)) → WhereTold whole (ahead window (S.left source.old)) (λ bytes rest. IsBehindHeader (codes "idrup") bytes window rest)
        → (bytes : List ℕ) → whole ≡ Some bytes → Ends result (K.written sink.old) (K.written sink.new) bytes }
    ensures source_count { S.faults source.old ≤ S.faults source.new }
    ensures sink_count { K.faults sink.old ≤ K.faults sink.new }
    ensures read { IsErrOf result ConvertFault.Read → Rose (S.faults source.old) (S.faults source.new) }
    ensures write { IsErrOf result ConvertFault.Write → Rose (K.faults sink.old) (K.faults sink.new) }
{
    let mut conversion = match begin(alloc, window, sink) {
        Ok(conversion) => conversion,
        Err(fault) => return Err(fault),
    };
    match convert_lines(&mut conversion, source, sink) {
        Ok(end) => Ok(end),
        Err(fault) => Err(fault),
    }
}

/// Converts a proof by literals into one by ids and hints. The source is read once, from its start, and at most 2^62 bytes of it;
/// the room grows with the clauses that are active or weakened, the inputs, and the longest line. What the sink held before stays,
/// and it isn't finished.
///
/// `Done` comes where the source keeps all rules by itself; then the target was written whole. Else `Refused` has the source's first
/// fault, an open query at its end among them; the target then holds the lines of the steps before, and nothing where the header is
/// at fault.
///
/// # Errors
///
/// `Read` and `Write` come only where the count of faults of the source, or of the sink, rose. `Exhausted` comes only where the next
/// line would make the target longer than 2^62 bytes. `Memory` means out of memory. The target then holds a first part of the
/// conversion of some steps before the source's first fault.
pub fn convert<S: Source, K: Sink>(
    alloc: Global,
    source: &mut S,
    sink: &mut K,
) -> Result<ConvertEnd, ConvertFault>
    ensures told { (bytes : List ℕ) → S.left source.old ≡ Some bytes → Ends result (K.written sink.old) (K.written sink.new) bytes }
    ensures source_count { S.faults source.old ≤ S.faults source.new }
    ensures sink_count { K.faults sink.old ≤ K.faults sink.new }
    ensures read { IsErrOf result ConvertFault.Read → Rose (S.faults source.old) (S.faults source.new) }
    ensures write { IsErrOf result ConvertFault.Write → Rose (K.faults sink.old) (K.faults sink.new) }
{
    let Ok(mut window) = Window::new(alloc) else {
        return Err(ConvertFault::Memory);
    };
    match read_header(&mut window, source, b"idrup") {
        Ok(()) => {}
        Err(HeaderFault::Syntax(rule)) => return Ok(refused(window.line(), rule)),
        Err(HeaderFault::Read) => return Err(ConvertFault::Read),
    }
    convert_behind(alloc, window, source, sink)
}
