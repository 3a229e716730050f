// The window itself. What contracts see of it is its place in the stream (`Place`), and what is still to come there:
// the present line with the words that are left of it (`present`), the members of the stream's lines behind it
// (`lines_behind`), and the number of the last line (`last_line`). `next` takes what is due off the present line, `peek`
// leaves it there, and `next_line` takes a line off those behind. All go by steps that look only at what the buffer holds,
// and between them by reads, which change nothing of what is to come.
//
// A line is taken with its first word. Before that `next_line` stays at the line and answers the same again, so that a caller
// may go to a line, look at its first word, and leave the line to whoever reads it: the lines that are due (`later`) begin
// with it still. The window knows this by its count of bytes alone: it stands where it entered the line.
ghost use Rattle.std.specs.Prelude.{◌≡◌, ℕ, ◌+◌, ◌<◌, ◌≤◌, Bool, List, [], ◌++◌, take, length, nat_lt, IfOk, IfErr, IfSome, OnOk, OnErr, IsErrOf, min, Ok, Err, true, false, Option};
ghost use Rattle.std.specs.Bool.{OnTrue, OnFalse};
ghost use Rattle.std.specs.Io.BufRead.{Rests};
ghost use Rattle.std.specs.Io.KnownBytes.{Keeps};
ghost use Rattle.std.specs.Borrow.{sem};
ghost use Rattle.outside.specs.Faults.{Rose, HasCause};
ghost use Rattle.session_rules.specs.Lines.{lines, end_line, most_bytes};
ghost use Rattle.slice_tokens.specs.Place.{at_start, ahead, room, begins_content, bare_line, present, later, is_cut, last_line, WhereTold};
ghost use Rattle.slice_tokens.specs.Due.{due, due_end};
ghost use Rattle.slice_tokens.specs.Calls.{Moves, Begins, Answers, IsLineEnd, Leaves, SameLines, Peeks, Halts, Reaches, at_line_end, stands_in_content};
ghost use Rattle.slice_tokens.specs.Front.{behind_space, coming, at_line_feed, IsWordFront, TakesWord};
ghost use Rattle.slice_tokens.specs.Held.{readable, blanks, passed_over, past_line, standing_at, Stays, Grows, Looks, Finds, Takes, Same, Next, Skips, Enters};
ghost use Rattle.slice_tokens.specs.contracts.window.Window.{the_row};

use crate::bytes::{blank_count, find_line_feed, word_count};
use crate::filling::read_more;
use crate::{Token, TokenFault};
use outside::{Failed, Source};
use std::alloc::{AllocError, Global};
use std::boxed::BoxedSlice;
use std::marker::Model;

// How many bytes the buffer has.
const SIZE: usize = 65_536;

// How many bytes of a stream are read at most.
const MOST_BYTES: u64 = 1 << 62;

// How many bytes a word has at most.
const LONGEST_WORD: usize = 32;

// Where a window stands in its line.
#[derive(Clone, Copy, PartialEq, Eq)]
enum Standing {
    // Before the first word, and whether the line has content isn't known yet.
    Start,
    // Within a line that has content.
    Content,
    // Within a comment.
    Comment,
}

// What a window holds of the next word.
enum Look {
    // It ends within what is held: so many bytes, 0 at the line's end.
    Ended(usize),
    TooLong,
    // It goes up to the bound.
    AtBound,
    // It goes on behind what is held, or ends with the stream.
    Going(usize),
}

/// A window over a stream.
#[derive(Drop)]
pub struct Window {
    buf: BoxedSlice<u8>,
    start: usize,
    end: usize,
    line: u64,
    passed: u64,
    // How many bytes it had passed over when it entered its line, if that has content.
    first: u64,
    ended: bool,
    standing: Standing,
}

impl Model for Window {
    ghost use Rattle.std.specs.List.{slice_range};
    ghost use Rattle.std.specs.Box.{boxed_slice_items};
    ghost use Rattle.std.specs.Prelude.{length};
    ghost use Rattle.slice_tokens.specs.Place.{Place, IsSound, is_fresh};

    ghost Value = { Place };

    ghost view = { λ w. record { held = slice_range (boxed_slice_items w.buf) w.start w.end; ended = w.ended; passed = w.passed; line = w.line; standing = w.standing; fresh = is_fresh w.standing w.passed w.first } };

    ghost invariant = { λ w. IsSound w.start w.end (length (boxed_slice_items w.buf)) w.passed w.line w.first w.standing (slice_range (boxed_slice_items w.buf) w.start w.end) };
}

impl Window {
    /// A window before the first line of a stream.
    pub fn new(alloc: Global) -> Result<Window, AllocError>
        ensures start { IfOk result (λ w. w ≡ at_start) }
        // Whatever the stream, all of it is ahead of the window, with all of its lines.
        ensures ahead { IfOk result (λ w. (left : Option (List ℕ)) → ahead w left ≡ left) }
        ensures present { IfOk result (λ w. (bytes : List ℕ) → present w bytes ≡ bare_line 1) }
        ensures lines { IfOk result (λ w. (bytes : List ℕ) → later w bytes ≡ lines bytes) }
        ensures last { IfOk result (λ w. (bytes : List ℕ) → last_line w bytes ≡ end_line bytes) }
        ensures cut { IfOk result (λ w. (bytes : List ℕ) → is_cut w bytes ≡ nat_lt most_bytes (length bytes)) }
    {
        let buf = vec![in alloc; 0; SIZE]?.into_boxed_slice();
        Ok(Window {
            buf,
            start: 0,
            end: 0,
            line: 1,
            passed: 0,
            first: 0,
            ended: false,
            standing: Standing::Start,
        })
    }

    /// Does nothing. A caller learns from it what holds of every window: it has passed over at most 2^62 bytes, and the number
    /// of its line is at most one more than these; it holds at most 65,536 bytes that it hasn't passed over, and before the
    /// first word of a content line that word's first byte.
    #[inline(always)]
    pub fn recall_bounds(&self)
        ensures moves { Moves self.now self.now }
        ensures held { length self.now.held ≤ 65_536 }
        ensures begins { Begins self.now }
    {
        let _buffer = &self.buf;
    }

    /// The number of the line at which it stands: 1 before the first line, and the end line at the end of the stream.
    pub fn line(&self) -> u64
        ensures line { result ≡ self.now.line }
        ensures present { (bytes : List ℕ) → (present self.now bytes).number ≡ result }
        ensures counted { result ≤ self.now.passed + 1 }
    {
        self.line
    }

    /// The next word of the line, or its end. At a line's end it stays there and answers `LineEnd` again, and so it does
    /// before the first `next_line`.
    ///
    /// # Errors
    ///
    /// `Read` where the source failed, `LongWord` where the next word has more than 32 bytes, `Length` where 2^62 bytes
    /// are used up before the word's end and there is a further one. The window then stands before the word, and the
    /// call may be made again.
    #[inline(always)]
    pub fn next<S: Source>(&mut self, src: &mut S) -> Result<Token<'_>, TokenFault>
        ensures answer { IfSome (ahead self.old (S.left src.old)) (λ bytes. Answers (due (present self.old bytes)) result) }
        ensures again { at_line_end self.old ≡ true → IsLineEnd result × (src.new ≡ src.old) }
        ensures ended { self.old.ended ≡ true → src.new ≡ src.old }
        ensures count { S.faults src.old ≤ S.faults src.new }
        ensures read { IsErrOf result TokenFault.Read → Rose (S.faults src.old) (S.faults src.new) }
        ensures* after { sem 𝓛 (Rests the_row self.entry (λ new. Leaves result self.old new (ahead self.old (S.left src.old)) (ahead new (S.left src.new)))) }
    {
        let count = self.seek(src)?;
        if count == 0 {
            return Ok(Token::LineEnd);
        }
        Ok(Token::Word(self.take(count)))
    }

    /// What `next` would answer. The window stays before the word, so that all lines and words that were to come still are,
    /// whatever it answers; it may have read on, and passed over blanks.
    ///
    /// # Errors
    ///
    /// As `next`.
    #[inline(always)]
    pub fn peek<S: Source>(&mut self, src: &mut S) -> Result<Token<'_>, TokenFault>
        ensures answer { IfSome (ahead self.old (S.left src.old)) (λ bytes. Answers (due (present self.old bytes)) result) }
        ensures again { at_line_end self.old ≡ true → IsLineEnd result × (src.new ≡ src.old) }
        ensures ended { self.old.ended ≡ true → src.new ≡ src.old }
        ensures count { S.faults src.old ≤ S.faults src.new }
        ensures read { IsErrOf result TokenFault.Read → Rose (S.faults src.old) (S.faults src.new) }
        ensures* after { sem 𝓛 (Rests the_row self.entry (λ new. Peeks result self.old new (ahead self.old (S.left src.old)) (ahead new (S.left src.new)))) }
    {
        let count = self.seek(src)?;
        if count == 0 {
            return Ok(Token::LineEnd);
        }
        Ok(Token::Word(self.show(count)))
    }

    /// The bytes behind one space that it holds and may read. There are none where it isn't in a content line, or another
    /// byte than a space comes next.
    #[inline(always)]
    pub fn behind_space(&self) -> &[u8]
        ensures { result.now ≡ behind_space self.now }
    {
        let readable = self.readable();
        if self.is_in_content() && !readable.is_empty() && readable[0] == b' ' {
            &readable[1..]
        } else {
            &readable[..0]
        }
    }

    /// Takes the space and the word behind it, which has so many bytes.
    #[inline(always)]
    pub fn take_word(&mut self, count: usize)
        requires { IsWordFront (behind_space self.old) count }
        ensures moves { Moves self.old self.new }
        ensures line { self.new.line ≡ self.old.line }
        ensures standing { self.new.standing ≡ self.old.standing }
        ensures fresh { self.new.fresh ≡ false }
        ensures passed { self.old.passed + count < self.new.passed }
        ensures told { (left : Option (List ℕ)) → WhereTold (ahead self.old left) (ahead self.new left)
            (λ bytes rest. TakesWord (take count (behind_space self.old)) self.old bytes self.new rest) }
    {
        self.recall_bounds();
        self.pass(count + 1);
    }

    /// The bytes that it holds and may read, where it is in a content line; else none.
    #[inline(always)]
    pub fn coming(&self) -> &[u8]
        ensures value { result.now ≡ coming self.now }
        ensures sound { Moves self.now self.now }
    {
        self.recall_bounds();
        let readable = self.readable();
        if self.is_in_content() {
            readable
        } else {
            &readable[..0]
        }
    }

    /// Takes the word at the front of these bytes, which has so many bytes.
    #[inline(always)]
    pub fn take_first(&mut self, count: usize)
        requires { IsWordFront (coming self.old) count }
        ensures moves { Moves self.old self.new }
        ensures line { self.new.line ≡ self.old.line }
        ensures standing { self.new.standing ≡ self.old.standing }
        ensures fresh { self.new.fresh ≡ false }
        ensures passed { self.old.passed + count ≤ self.new.passed }
        ensures told { (left : Option (List ℕ)) → WhereTold (ahead self.old left) (ahead self.new left)
            (λ bytes rest. TakesWord (take count (coming self.old)) self.old bytes self.new rest) }
    {
        self.recall_bounds();
        self.pass(count);
    }

    /// Passes over so many of these bytes, whichever words they are.
    #[inline(always)]
    #[tactic(auto, using(crate::proofs::Front::coming_bounds, crate::proofs::Places::passed_taken))]
    pub fn pass_over(&mut self, count: usize)
        requires { count ≤ length (coming self.old) }
        ensures moves { Moves self.old self.new }
        ensures line { self.new.line ≡ self.old.line }
        ensures standing { self.new.standing ≡ self.old.standing }
        ensures taken { self.old.fresh ≡ false → self.new.fresh ≡ false }
        ensures place { self.new ≡ passed_over count self.old }
    {
        self.recall_bounds();
        self.pass(count);
    }

    /// Whether a line feed comes next in a content line, among the bytes that it holds and may read. Then the line's end
    /// is due.
    #[inline(always)]
    pub fn is_at_line_feed(&self) -> bool
        ensures value { result ≡ at_line_feed self.now }
        ensures sound { Moves self.now self.now }
        ensures end { OnTrue result ((left : Option (List ℕ)) → IfSome (ahead self.now left) (λ bytes. due (present self.now bytes) ≡ due_end)) }
    {
        self.recall_bounds();
        self.sees_line_feed()
    }

    /// Passes over the rest of the line and over all lines without content. True where it stands before the first word
    /// of a content line, false at the end of the stream. Where it stands there already, and no word of the line was taken, it
    /// stays: the line is due until its first word is taken.
    ///
    /// # Errors
    ///
    /// `Read` where the source failed, `Length` where 2^62 bytes are used up and there is a further one; never
    /// `LongWord`. The window keeps what it has passed over, and the next call goes on from there.
    pub fn next_line<S: Source>(&mut self, src: &mut S) -> Result<bool, TokenFault>
        ensures moves { Moves self.old self.new }
        ensures halts { Halts self.new result }
        ensures stays { self.old.fresh ≡ true → (result ≡ Ok true) × (self.new ≡ self.old) × (src.new ≡ src.old) }
        ensures told { WhereTold (ahead self.old (S.left src.old)) (ahead self.new (S.left src.new))
            (λ bytes rest. Reaches self.old bytes self.new rest result) }
        ensures ended { self.old.ended ≡ true → src.new ≡ src.old }
        ensures count { S.faults src.old ≤ S.faults src.new }
        ensures read { IsErrOf result TokenFault.Read → Rose (S.faults src.old) (S.faults src.new) }
    {
        self.recall_bounds();
        if self.is_fresh() {
            return Ok(true);
        }
        'lines: loop {
            self.fill(src)?;
            if self.readable().is_empty() {
                if self.held() == 0 {
                    return Ok(false);
                }
                return Err(TokenFault::Length);
            }
            if !self.is_at_start() {
                self.skip();
            } else if self.enter() {
                return Ok(true);
            }
        }
    }
}

// The steps that the two calls are made of. Where one begins with `recall_bounds`, its proof so gets to know what holds of
// every window.
impl Window {
    #[inline(always)]
    fn is_in_content(&self) -> bool
        ensures { result ≡ stands_in_content self.now.standing }
    {
        self.standing == Standing::Content
    }

    #[inline(always)]
    fn is_at_start(&self) -> bool
        ensures { result ≡ standing_at Standing.Start self.now }
    {
        self.standing == Standing::Start
    }

    // Whether it stands where it entered a content line.
    #[inline(always)]
    fn is_fresh(&self) -> bool
        ensures { result ≡ self.now.fresh }
    {
        self.standing == Standing::Content && self.passed == self.first
    }

    // How many bytes it holds.
    #[inline(always)]
    fn held(&self) -> usize
        ensures { result ≡ length self.now.held }
    {
        self.end - self.start
    }

    // Whether it has met the end of the stream.
    #[inline(always)]
    fn has_ended(&self) -> bool
        ensures { result ≡ self.now.ended }
    {
        self.ended
    }

    // The bytes that it holds, up to the bound.
    #[inline(always)]
    fn readable(&self) -> &[u8]
        ensures value { result.now ≡ readable self.now }
        ensures len { length result.now ≡ min (room self.now) (length self.now.held) }
        ensures bound { self.now.passed + length result.now ≤ most_bytes }
    {
        let room = MOST_BYTES - self.passed;
        let held = self.end - self.start;
        let count = if room < held as u64 {
            room as usize
        } else {
            held
        };
        &self.buf[self.start..self.start + count]
    }

    #[inline(always)]
    fn sees_line_feed(&self) -> bool
        ensures { result ≡ at_line_feed self.now }
    {
        let readable = self.readable();
        self.is_in_content() && !readable.is_empty() && readable[0] == b'\n'
    }

    fn begin_comment(&mut self)
        ensures { self.new ≡ record self.old { standing = Standing.Comment; fresh = false } }
    {
        self.standing = Standing::Comment;
    }

    // Enters a content line, before its first word.
    fn begin_content(&mut self)
        requires { begins_content (readable self.old) ≡ true }
        ensures { self.new ≡ record self.old { standing = Standing.Content; fresh = true } }
    {
        self.first = self.passed;
        self.standing = Standing::Content;
    }

    #[inline(always)]
    fn pass(&mut self, count: usize)
        requires here { count ≤ length self.old.held }
        requires bound { self.old.passed + count ≤ most_bytes }
        ensures { self.new ≡ passed_over count self.old }
    {
        self.start += count;
        self.passed += count as u64;
    }

    // Passes over some bytes, the last of which ends the line.
    #[inline(always)]
    fn pass_line(&mut self, count: usize)
        requires some { 0 < count }
        requires here { count ≤ length self.old.held }
        requires bound { self.old.passed + count ≤ most_bytes }
        ensures { self.new ≡ past_line count self.old }
    {
        self.start += count;
        self.passed += count as u64;
        self.line += 1;
        self.standing = Standing::Start;
    }

    #[inline(always)]
    fn take(&mut self, count: usize) -> &[u8]
        requires here { count ≤ length self.old.held }
        requires bound { self.old.passed + count ≤ most_bytes }
        ensures word { result.now ≡ take count self.old.held }
        ensures* after { sem 𝓛 (Rests the_row self.entry (λ new. new ≡ passed_over count self.old)) }
    {
        let from = self.start;
        self.start += count;
        self.passed += count as u64;
        &self.buf[from..from + count]
    }

    // What `take` hands out, without taking it.
    #[inline(always)]
    fn show(&mut self, count: usize) -> &[u8]
        requires { count ≤ length self.old.held }
        ensures word { result.now ≡ take count self.old.held }
        ensures* after { sem 𝓛 (Rests the_row self.entry (λ new. new ≡ self.old)) }
    {
        &self.buf[self.start..self.start + count]
    }

    // Moves what it holds to the front, and reads once more.
    #[inline(never)]
    fn refill<S: Source>(&mut self, src: &mut S) -> Result<(), TokenFault>
        requires room { length self.old.held < SIZE }
        requires going { self.old.ended ≡ false }
        ensures stays { Stays self.old self.new }
        ensures grows { OnOk result (Grows self.old self.new) }
        ensures err { IfErr result (λ e. (e ≡ TokenFault.Read) × (self.new ≡ self.old)) }
        ensures ahead { Keeps (ahead self.old (S.left src.old)) (ahead self.new (S.left src.new)) }
        ensures cause { HasCause (S.faults src.old) (S.faults src.new) result }
    {
        let held = self.end - self.start;
        let read = read_more(src, self.buf.as_mut_slice(), self.start, self.end);
        self.start = 0;
        self.end = held;
        match read {
            Ok(count) => {
                self.end += count;
                self.ended = count == 0;
                Ok(())
            }
            Err(Failed) => Err(TokenFault::Read),
        }
    }

    // Reads once more where it holds nothing. Then it holds something, or the stream has ended.
    fn fill<S: Source>(&mut self, src: &mut S) -> Result<(), TokenFault>
        ensures stays { Stays self.old self.new }
        ensures some { OnOk result (length self.new.held ≡ 0 → self.new.ended ≡ true) }
        ensures err { IfErr result (λ e. (e ≡ TokenFault.Read) × (self.new ≡ self.old)) }
        ensures ahead { Keeps (ahead self.old (S.left src.old)) (ahead self.new (S.left src.new)) }
        ensures ended { self.old.ended ≡ true → src.new ≡ src.old }
        ensures cause { HasCause (S.faults src.old) (S.faults src.new) result }
    {
        if self.held() == 0 && !self.has_ended() {
            return self.refill(src);
        }
        Ok(())
    }

    // Passes over the blanks that it holds, and looks at the word behind them.
    #[inline(always)]
    fn look(&mut self) -> Look
        ensures moves { Moves self.old self.new }
        ensures after { self.new ≡ passed_over (blanks self.old) self.old }
        ensures fresh { self.new.fresh ≡ self.old.fresh }
        ensures seen { Looks self.old result }
    {
        self.recall_bounds();
        let readable = self.readable();
        let count = blank_count(readable);
        let word = word_count(&readable[count..]);
        let is_whole = count + word < readable.len();
        let is_more = readable.len() < self.held();
        self.pass(count);
        if LONGEST_WORD < word {
            Look::TooLong
        } else if is_whole {
            Look::Ended(word)
        } else if is_more {
            Look::AtBound
        } else {
            Look::Going(word)
        }
    }

    // Passes over blanks up to the next word of the line, and holds the whole of it: so many bytes, 0 at the line's end.
    #[inline(always)]
    fn find<S: Source>(&mut self, src: &mut S) -> Result<usize, TokenFault>
        requires { self.old.standing ≡ Standing.Content }
        ensures takes { Takes self.old self.new result }
        ensures told { WhereTold (ahead self.old (S.left src.old)) (ahead self.new (S.left src.new))
            (λ bytes rest. Same self.old bytes self.new rest × Finds self.new rest result) }
        ensures word { IfOk result (λ n. 0 < n → WhereTold (ahead self.new (S.left src.new)) (ahead (passed_over n self.new) (S.left src.new))
            (λ bytes rest. Next self.new bytes (passed_over n self.new) rest)) }
        ensures again { at_line_end self.old ≡ true → (result ≡ Ok 0) × (self.new ≡ self.old) × (src.new ≡ src.old) }
        ensures ended { self.old.ended ≡ true → src.new ≡ src.old }
        ensures count { S.faults src.old ≤ S.faults src.new }
        ensures read { result ≡ Err TokenFault.Read → Rose (S.faults src.old) (S.faults src.new) }
    {
        self.recall_bounds();
        'look: loop {
            match self.look() {
                Look::Ended(word) => return Ok(word),
                Look::TooLong => return Err(TokenFault::LongWord),
                Look::AtBound => return Err(TokenFault::Length),
                Look::Going(word) => {
                    if self.has_ended() {
                        return Ok(word);
                    }
                }
            }
            self.refill(src)?;
        }
    }

    // Goes to the next word of the line, as `find` does; outside of content lines there is none, and it does nothing.
    #[inline(always)]
    fn seek<S: Source>(&mut self, src: &mut S) -> Result<usize, TokenFault>
        ensures takes { Takes self.old self.new result }
        ensures told { WhereTold (ahead self.old (S.left src.old)) (ahead self.new (S.left src.new))
            (λ bytes rest. SameLines self.old bytes self.new rest × Finds self.new rest result) }
        ensures word { IfOk result (λ n. 0 < n → WhereTold (ahead self.new (S.left src.new)) (ahead (passed_over n self.new) (S.left src.new))
            (λ bytes rest. Next self.new bytes (passed_over n self.new) rest)) }
        ensures again { at_line_end self.old ≡ true → (result ≡ Ok 0) × (self.new ≡ self.old) × (src.new ≡ src.old) }
        ensures ended { self.old.ended ≡ true → src.new ≡ src.old }
        ensures count { S.faults src.old ≤ S.faults src.new }
        ensures read { result ≡ Err TokenFault.Read → Rose (S.faults src.old) (S.faults src.new) }
    {
        self.recall_bounds();
        if !self.is_in_content() {
            return Ok(0);
        }
        self.find(src)
    }

    // Passes over what it holds of the rest of the line.
    fn skip(&mut self)
        requires fresh { self.old.fresh ≡ false }
        requires within { standing_at Standing.Start self.old ≡ false }
        requires some { 0 < length (readable self.old) }
        ensures moves { Moves self.old self.new }
        ensures ended { self.new.ended ≡ self.old.ended }
        ensures skips { Skips self.old self.new }
    {
        self.recall_bounds();
        let readable = self.readable();
        let len = readable.len();
        match find_line_feed(readable) {
            Some(at) => self.pass_line(at + 1),
            None => self.pass(len),
        }
    }

    // From a line's beginning over blanks, and then over a bare line's end or the sign of a comment. True before the
    // first word of a content line.
    fn enter(&mut self) -> bool
        requires start { self.old.standing ≡ Standing.Start }
        requires some { 0 < length (readable self.old) }
        ensures moves { Moves self.old self.new }
        ensures ended { self.new.ended ≡ self.old.ended }
        ensures skips { OnFalse result (Skips self.old self.new) }
        ensures enters { OnTrue result (Enters self.old self.new) }
    {
        self.recall_bounds();
        let readable = self.readable();
        let len = readable.len();
        let count = blank_count(readable);
        if count == len {
            self.pass(count);
            return false;
        }
        let first = readable[count];
        if first == b'\n' {
            self.pass_line(count + 1);
            return false;
        }
        if first == b'c' {
            self.pass(count + 1);
            self.begin_comment();
            return false;
        }
        self.pass(count);
        self.begin_content();
        true
    }
}
