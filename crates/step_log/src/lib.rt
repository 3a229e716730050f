//! A log that writes each step that a solver tells as a line of a proof, the moment it is told, in either form. The solver works
//! on the numbers of variables; the lines have the variables.
#![tactic(auto)]

ghost use Rattle.std.specs.Prelude.{◌≡◌, ℕ, Result};
ghost use Rattle.session_rules.specs.declared.Form.{Form};
ghost use Rattle.session_rules.specs.declared.Told.{Told};
ghost use Rattle.session_rules.specs.Spelling.{line_text};
ghost use Rattle.session_rules.specs.Telling.{told_words};
ghost use Rattle.line_writing.specs.Writing.{writer, WritesLine};
ghost use Rattle.step_log.specs.Logged.{LogView, Takes, Refuses, LineGives, named_words};
ghost use Rattle.step_log.specs.Laws.{taken-room, refused-form, refused-names, refused-faults, refused-write, refused-exhausted};

use line_writing::{Part, write_parts};
use lits::{Dense, Lit};
use outside::Sink;
use session_rules::{Form, Id, Log, LogFault, WriteFault};

/// Writes the line that tells a lemma, its literals over the numbers of variables.
///
/// # Errors
///
/// As those of `line_writing::write_parts`.
fn write_lemma<'a, K: Sink>(
    sink: &mut K,
    room: &mut u64,
    form: Form,
    dense: &'a Dense,
    id: Id,
    lits: &'a [Lit],
    hints: &'a [Id],
) -> Result<(), WriteFault>
    ensures { let at = writer K.written K.finished K.faults in
        WritesLine (line_text (told_words form dense.now (Told.Lemma id lits.now hints.now))) (at sink.old room.old) (at sink.new room.new) result }
{
    match form {
        Form::Idrup => write_parts(sink, room, b'l', &[Part::Numbered(dense, lits)]),
        Form::Lidrup => write_parts(
            sink,
            room,
            b'l',
            &[Part::Id(id), Part::Numbered(dense, lits), Part::Ids(hints)],
        ),
    }
}

/// Writes a line of a letter that names a clause: by its literals, or by its id.
fn write_named<'a, K: Sink>(
    sink: &mut K,
    room: &mut u64,
    form: Form,
    dense: &'a Dense,
    letter: u8,
    ids: &'a [Id],
    lits: &'a [Lit],
) -> Result<(), WriteFault>
    ensures { let at = writer K.written K.finished K.faults in
        WritesLine (line_text (named_words form letter dense.now ids.now lits.now)) (at sink.old room.old) (at sink.new room.new) result }
{
    match form {
        Form::Idrup => write_parts(sink, room, letter, &[Part::Numbered(dense, lits)]),
        Form::Lidrup => write_parts(sink, room, letter, &[Part::Ids(ids)]),
    }
}

/// A log that writes each told step as a line of a proof.
///
/// Contracts see its form, the variables of its numbering, its sink, and how many bytes its lines may still have.
#[derive(Drop)]
pub struct StepLog<'a, K> {
    sink: &'a mut K,
    dense: &'a Dense,
    form: Form,
    room: u64,
}

impl<'a, K: Sink> StepLog<'a, K> {
    /// A log over this sink, with room for so many bytes.
    pub fn new(sink: &'a mut K, dense: &'a Dense, form: Form, room: u64) -> StepLog<'a, K>
        ensures sink { result.sink.now ≡ sink.old }
        ensures same_reference { result.sink.ghost_name ≡ sink.entry.ghost_name }
        ensures names { result.dense.now ≡ dense.now }
        ensures form { result.form ≡ form }
        ensures room { result.room ≡ room }
    {
        StepLog {
            sink,
            dense,
            form,
            room,
        }
    }

    /// How many bytes its lines may still have.
    pub fn room(&self) -> u64
        ensures { result ≡ self.now.room }
    {
        self.room
    }
}

impl<'a, K: Sink> Log for StepLog<'a, K> {
    ghost faults = { λ s. K.faults s.sink.now };

    ghost form = { λ s. s.form };

    ghost names = { λ s. s.dense.now };

    ghost room = { λ s. s.room };

    ghost takes = { λ before told after. Takes (writer K.written K.finished K.faults) (record { form = before.form; names = before.dense.now; sink = before.sink.now; reference = before.sink.ghost_name; room = before.room }) told (record { form = after.form; names = after.dense.now; sink = after.sink.now; reference = after.sink.ghost_name; room = after.room }) };

    ghost refuses = { λ before told fault after. Refuses (writer K.written K.finished K.faults) (record { form = before.form; names = before.dense.now; sink = before.sink.now; reference = before.sink.ghost_name; room = before.room }) told fault (record { form = after.form; names = after.dense.now; sink = after.sink.now; reference = after.sink.ghost_name; room = after.room }) (after ≡ before) };

    ghost taken_form = { λ before told after h. h.form };

    ghost taken_names = { λ before told after h. h.names };

    ghost taken_faults = { λ before told after h. h.wrote.later };

    ghost taken_room = { λ before told after h. taken-room K.written K.finished K.faults (record { form = before.form; names = before.dense.now; sink = before.sink.now; reference = before.sink.ghost_name; room = before.room }) (record { form = after.form; names = after.dense.now; sink = after.sink.now; reference = after.sink.ghost_name; room = after.room }) told h };

    ghost refused_form = { λ before told fault after h. refused-form K.written K.finished K.faults (record { form = before.form; names = before.dense.now; sink = before.sink.now; reference = before.sink.ghost_name; room = before.room }) (record { form = after.form; names = after.dense.now; sink = after.sink.now; reference = after.sink.ghost_name; room = after.room }) told (after ≡ before) (λ e i. record { form = (e i).form; names = (e i).dense.now; sink = (e i).sink.now; reference = (e i).sink.ghost_name; room = (e i).room }) fault h };

    ghost refused_names = { λ before told fault after h. refused-names K.written K.finished K.faults (record { form = before.form; names = before.dense.now; sink = before.sink.now; reference = before.sink.ghost_name; room = before.room }) (record { form = after.form; names = after.dense.now; sink = after.sink.now; reference = after.sink.ghost_name; room = after.room }) told (after ≡ before) (λ e i. record { form = (e i).form; names = (e i).dense.now; sink = (e i).sink.now; reference = (e i).sink.ghost_name; room = (e i).room }) fault h };

    ghost refused_faults = { λ before told fault after h. refused-faults K.written K.finished K.faults (record { form = before.form; names = before.dense.now; sink = before.sink.now; reference = before.sink.ghost_name; room = before.room }) (record { form = after.form; names = after.dense.now; sink = after.sink.now; reference = after.sink.ghost_name; room = after.room }) told (after ≡ before) (λ e i. record { form = (e i).form; names = (e i).dense.now; sink = (e i).sink.now; reference = (e i).sink.ghost_name; room = (e i).room }) fault h };

    ghost refused_write = { λ before told after h. refused-write K.written K.finished K.faults (record { form = before.form; names = before.dense.now; sink = before.sink.now; reference = before.sink.ghost_name; room = before.room }) (record { form = after.form; names = after.dense.now; sink = after.sink.now; reference = after.sink.ghost_name; room = after.room }) told (after ≡ before) h };

    ghost refused_exhausted = { λ before told after h. refused-exhausted K.written K.finished K.faults (record { form = before.form; names = before.dense.now; sink = before.sink.now; reference = before.sink.ghost_name; room = before.room }) (record { form = after.form; names = after.dense.now; sink = after.sink.now; reference = after.sink.ghost_name; room = after.room }) told (after ≡ before) h };

    fn lemma(&mut self, id: Id, lits: &[Lit], hints: &[Id]) -> Result<(), LogFault> {
        fault_of(write_lemma(
            self.sink,
            &mut self.room,
            self.form,
            self.dense,
            id,
            lits,
            hints,
        ))
    }

    fn delete(&mut self, id: Id, lits: &[Lit]) -> Result<(), LogFault> {
        fault_of(write_named(
            self.sink,
            &mut self.room,
            self.form,
            self.dense,
            b'd',
            &[id],
            lits,
        ))
    }

    fn weaken(&mut self, id: Id, lits: &[Lit]) -> Result<(), LogFault> {
        fault_of(write_named(
            self.sink,
            &mut self.room,
            self.form,
            self.dense,
            b'w',
            &[id],
            lits,
        ))
    }

    fn restore(&mut self, id: Id, lits: &[Lit]) -> Result<(), LogFault> {
        fault_of(write_named(
            self.sink,
            &mut self.room,
            self.form,
            self.dense,
            b'r',
            &[id],
            lits,
        ))
    }
}

/// The fault of a log for that of a line.
fn fault_of(written: Result<(), WriteFault>) -> Result<(), LogFault>
    ensures { LineGives written result }
{
    match written {
        Ok(()) => Ok(()),
        Err(WriteFault::Write) => Err(LogFault::Write),
        Err(WriteFault::Exhausted) => Err(LogFault::Exhausted),
    }
}
