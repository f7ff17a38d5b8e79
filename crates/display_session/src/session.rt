//! A session.
ghost use Rattle.std.specs.Prelude.{◌≡◌, true, false, [], ◌∷◌, None, length, map, option_map, slice_get, slice_index_or, slice_range, string_bytes, IfErr, IfNone, IfOk, IfSome, MatchResult, OnErr, OnOk};
ghost use Rattle.std.specs.Str.{IsUtf8};
ghost use Rattle.cell_units.specs.Refusal.{IsAccepted, IsTextRefused};
ghost use Rattle.cell_units.specs.Text.{clean};
ghost use Rattle.plain_rows.specs.Rows.{rows_of};
ghost use Rattle.plain_rows.specs.Spots.{back, clip, show};
ghost use Rattle.display_sheet.specs.Changes.{batch, change_refusal, edit_refusal, ops_of, splice_of};
ghost use Rattle.display_sheet.specs.Shown.{show_refusal};
ghost use Rattle.display_map.specs.Events.{Did, Published};
ghost use Rattle.display_map.specs.Replay.{appended, is_settled, present_of};
ghost use Rattle.row_pieces.specs.Pieces.{pieces_in_rows, text_of};
ghost use Rattle.edit_script.specs.declared.asked.Query.TheVariants.{Rows};
ghost use Rattle.edit_script.specs.Answers.{lines_of};
ghost use Rattle.edit_script.specs.Commands.{Ask, AskCaret, meaning};
ghost use Rattle.edit_script.specs.Verdict.{Accepted, command_refusal, query_refusal, query_wants_settled, refused_or};
ghost use Rattle.display_session.specs.Answers.{filled_with, printed, row_of};
ghost use Rattle.display_session.specs.CaretLines.{caret_lines};
ghost use Rattle.display_session.specs.HostMarks.{are_placed, marks_at, marks_moved};
ghost use Rattle.display_session.specs.LentPieces.{lent_items, lent_piece};
ghost use Rattle.display_session.specs.Lines.{HasDone, HasDoneAt, HasFailedAt, IsReady, IsSettled, query_verdict, verdict_on};
ghost use Rattle.display_session.specs.Slices.{slice_refusal};
ghost use Rattle.display_session.specs.Troubles.{IsEditRefused, IsOwed, IsUnwrapped};
ghost use Rattle.display_session.specs.Watches.{asked_at, is_watched};
ghost use Rattle.display_session.specs.Wrapping.{IsWrapped};

use crate::answering::{answer_text, wants_settled};
use crate::caret_lines::caret_answer;
use crate::host_marks::{HostMarks, moved};
use crate::lent_pieces::{LentPiece, joined_text, lent_pieces};
use crate::lone::LoneDisplay;
use crate::text_parts::{text_between, text_len};
use crate::trouble::Trouble;
use crate::watch::Watch;
use cell_units::{Bias, NoMemory, Refusal, Spot, Steps, Text, TextFault};
use display_map::{Change, Kind, Op, Splice};
use edit_script::laws::verdict_laws;
use edit_script::{Asked, CaretQuery, Form, Query, query_refusal, read_line};
use mark_tree::MarkTree;
use std::alloc::Global;
use view_pieces::pieces_of_row;

/// One display, the bytes of the last answer, and marks of the host's own, which move with the edits. Offsets count
/// bytes of the text, and columns cells.
///
/// Lines that a change touches stand in one row until `wrap` or `settle` has wrapped them.
pub struct Session {
    pub(crate) display: LoneDisplay,
    answer: String,
    pub(crate) marks: HostMarks,
    /// What is kept since a host last asked for the rows that changed, if it did.
    pub(crate) watch: Option<Watch>,
    ghost placed: { are_placed (present_of display).text marks ≡ true },
    ghost watched: { is_watched display watch ≡ true },
}

impl Drop for Session {
    fn drop(self) {
        let Session {
            display: _,
            answer: _,
            marks: _,
            watch: _,
        } = self;
    }
}

impl Session {
    /// A session on a text, in which each CR LF and then each lone CR is a LF. One version is published.
    pub fn open(alloc: Global, bytes: &[u8]) -> Result<Session, TextFault>
        ensures opened { MatchResult result
            (λ session. session.display ≡ record { opening = clean bytes.now; events = Published false ∷ [] })
            (IsTextRefused bytes.now) }
        ensures accepted { OnOk result (IsAccepted bytes.now) }
        ensures marks { IfOk result (λ session. session.marks ≡ []) }
        ensures asked { IfOk result (λ session. asked_at session.watch ≡ None) }
    {
        Ok(Session {
            display: LoneDisplay::open(alloc, bytes)?,
            answer: String::new(alloc),
            marks: MarkTree::new(alloc),
            watch: None,
        })
    }

    /// Does what a line of a script asks, in the script's second form. The lines of an answer are kept, each with a line
    /// feed after it; a line that isn't a question keeps none. A refused line does nothing. Where there is no memory or no
    /// room in the journal, lines may have been wrapped. After either the last answer is still kept.
    pub fn apply(&mut self, alloc: Global, line: &[u8]) -> Result<(), Trouble>
        // What it does and keeps, and what a line that fails does.
        ensures done { OnOk result (HasDoneAt (verdict_on self.old.display line.now)
            self.old.display self.new.display (string_bytes self.new.answer)) }
        ensures failed { IfErr result (HasFailedAt (verdict_on self.old.display line.now)
            self.old.display self.new.display) }
        ensures moved { OnOk result
            (self.new.marks ≡ marks_at (verdict_on self.old.display line.now) self.old.marks) }

        // What stays.
        ensures kept { OnErr result (self.new.answer ≡ self.old.answer) }
        ensures marks { OnErr result (self.new.marks ≡ self.old.marks) }
        ensures asked { asked_at self.new.watch ≡ asked_at self.old.watch }
    {
        match self.read(alloc, line)? {
            Asked::Change(change) => {
                self.change(alloc, &change)?;
                self.answer.clear();
                Ok(())
            }
            Asked::Query(query) => self.ask(alloc, &query),
            Asked::Caret(query) => self.ask_caret(alloc, &query),
            Asked::Settle => {
                self.settle(alloc)?;
                self.answer.clear();
                Ok(())
            }
        }
    }

    /// Reads a line.
    fn read(&self, alloc: Global, line: &[u8]) -> Result<Asked, Trouble>
        ensures read { IfOk result (λ asked. verdict_on self.now.display line.now
            ≡ refused_or (meaning asked) (command_refusal (present_of self.now.display) (meaning asked))) }
        ensures failed { IfErr result
            (HasFailedAt (verdict_on self.now.display line.now) self.now.display self.now.display) }
    {
        // For the proof: the verdict on a line is that on what it asks, or the refusal for which it isn't read.
        verdict_laws();
        let view = self.display.view()?;
        match read_line(alloc, line, Form::Second, &view, &mut Steps::new()) {
            Ok(asked) => Ok(asked),
            Err(fault) => Err(fault.into()),
        }
    }

    /// Does a change. A refused change leaves the session as it was, and so does one for which there is no memory or no
    /// room in the journal.
    pub fn change(&mut self, alloc: Global, change: &Change) -> Result<(), Trouble>
        // When it is done, and what is there after it.
        ensures accepted { OnOk result
            (change_refusal (present_of self.old.display) change.now ≡ None) }
        ensures done { OnOk result
            (self.new.display ≡ appended self.old.display (map Did (ops_of change.now))) }
        ensures moved { OnOk result
            (self.new.marks ≡ marks_moved (ops_of change.now) self.old.marks) }

        // Why it is refused, and that nothing is changed then.
        ensures refused { IfErr result
            (IsOwed (change_refusal (present_of self.old.display) change.now)) }
        ensures unchanged { OnErr result (self.new ≡ self.old) }

        // The last answer, and when the rows that changed were asked for.
        ensures kept { self.new.answer ≡ self.old.answer }
        ensures asked { asked_at self.new.watch ≡ asked_at self.old.watch }
    {
        // For the proof: no mark is past the text.
        self.display.lawful();
        let marks = moved(alloc, &self.marks, change)?;
        self.display.apply(alloc, change, &mut self.watch)?;
        // For the proof: each operation was allowed where it was done, so marks are at boundaries after it.
        self.display.lawful();
        self.marks = marks;
        Ok(())
    }

    /// Replaces the bytes of the text from `start` to `end` by others, in which each CR LF and then each lone CR becomes a
    /// LF. `NotUtf8` where they aren't UTF-8. A refused edit leaves the session as it was, and so does one for which
    /// there is no memory or no room in the journal.
    pub fn edit(&mut self, alloc: Global, start: u32, end: u32, bytes: &[u8]) -> Result<(), Trouble>
        // When it is done, and what is there after it.
        ensures accepted { OnOk result (IsUtf8 bytes.now
            × (edit_refusal (present_of self.old.display) (splice_of start end bytes.now ∷ []) ≡ None)) }
        ensures done { OnOk result (self.new.display
            ≡ appended self.old.display (map Did (batch (splice_of start end bytes.now ∷ [])))) }
        ensures moved { OnOk result (self.new.marks
            ≡ marks_moved (batch (splice_of start end bytes.now ∷ [])) self.old.marks) }

        // Why it is refused, and that nothing is changed then.
        ensures refused { IfErr result (IsEditRefused bytes.now
            (edit_refusal (present_of self.old.display) (splice_of start end bytes.now ∷ []))) }
        ensures unchanged { OnErr result (self.new ≡ self.old) }

        // The last answer, and when the rows that changed were asked for.
        ensures kept { self.new.answer ≡ self.old.answer }
        ensures asked { asked_at self.new.watch ≡ asked_at self.old.watch }
    {
        let Ok(text) = str::from_utf8(bytes) else {
            return Err(Trouble::NotUtf8);
        };
        let text = Text::from_str(alloc, text)?;
        self.change(
            alloc,
            &Change::One(Op::Replace(Splice { start, end, text })),
        )
    }

    /// Why the display refuses a question, if it does.
    fn refusal(&self, alloc: Global, query: &Query) -> Result<Option<Refusal>, NoMemory>
        ensures { IfOk result (λ refusal.
            refusal ≡ query_refusal (present_of self.now.display) query.now) }
    {
        let view = self.display.view()?;
        Ok(query_refusal(alloc, &view, query, &mut Steps::new()))
    }

    /// Wraps all lines that wait, where a question is put to such lines alone.
    fn prepare(&mut self, alloc: Global, query: &Query) -> Result<(), Trouble>
        // The display is ready, or not.
        ensures ready { OnOk result
            (IsReady (query_wants_settled query.now) self.old.display self.new.display) }
        ensures wrapped { IsWrapped self.old.display self.new.display }
        ensures failed { IfErr result (IsUnwrapped self.new.display) }

        // What stays.
        ensures kept { self.new.answer ≡ self.old.answer }
        ensures marks { self.new.marks ≡ self.old.marks }
        ensures asked { asked_at self.new.watch ≡ asked_at self.old.watch }
    {
        if wants_settled(query) {
            self.settle(alloc)?;
        }
        Ok(())
    }

    /// The lines that answer a question on the display as it is.
    fn answer_now(&self, alloc: Global, query: &Query) -> Result<String, NoMemory>
        requires { query_refusal (present_of self.now.display) query.now ≡ None }
        ensures { IfOk result (λ text.
            string_bytes text ≡ printed (lines_of self.now.display query.now)) }
    {
        let view = self.display.view()?;
        answer_text(alloc, &view, query)
    }

    /// Answers a question that isn't refused.
    fn ask_accepted(&mut self, alloc: Global, query: &Query) -> Result<(), Trouble>
        requires { query_refusal (present_of self.old.display) query.now ≡ None }
        // What it does and keeps, and what it does where it fails.
        ensures done { OnOk result (HasDone (Ask query.now)
            self.old.display self.new.display (string_bytes self.new.answer)) }
        ensures failed { IfErr result (HasFailedAt (Accepted (Ask query.now))
            self.old.display self.new.display) }

        // What stays.
        ensures kept { OnErr result (self.new.answer ≡ self.old.answer) }
        ensures marks { self.new.marks ≡ self.old.marks }
        ensures asked { asked_at self.new.watch ≡ asked_at self.old.watch }
    {
        self.prepare(alloc, query)?;
        self.answer = self.answer_now(alloc, query)?;
        Ok(())
    }

    /// Answers a question, or refuses it.
    fn ask(&mut self, alloc: Global, query: &Query) -> Result<(), Trouble>
        // What it does and keeps, and what it does where it fails.
        ensures done { OnOk result (HasDoneAt (query_verdict self.old.display query.now)
            self.old.display self.new.display (string_bytes self.new.answer)) }
        ensures failed { IfErr result (HasFailedAt (query_verdict self.old.display query.now)
            self.old.display self.new.display) }

        // What stays.
        ensures kept { OnErr result (self.new.answer ≡ self.old.answer) }
        ensures marks { self.new.marks ≡ self.old.marks }
        ensures asked { asked_at self.new.watch ≡ asked_at self.old.watch }
    {
        match self.refusal(alloc, query)? {
            Some(refusal) => Err(Trouble::Refused(refusal)),
            None => self.ask_accepted(alloc, query),
        }
    }

    /// The lines that answer a question about a caret on the display as it is.
    fn caret_now(&self, alloc: Global, query: &CaretQuery) -> Result<String, NoMemory>
        ensures { IfOk result (λ text.
            string_bytes text ≡ printed (caret_lines (present_of self.now.display) query.now)) }
    {
        let view = self.display.view()?;
        caret_answer(alloc, &view, query)
    }

    /// Answers a question about a caret, which is never refused.
    fn ask_caret(&mut self, alloc: Global, query: &CaretQuery) -> Result<(), Trouble>
        // What it does and keeps, and what it does where it fails.
        ensures done { OnOk result (HasDone (AskCaret query.now)
            self.old.display self.new.display (string_bytes self.new.answer)) }
        ensures failed { IfErr result (HasFailedAt (Accepted (AskCaret query.now))
            self.old.display self.new.display) }

        // What stays.
        ensures kept { OnErr result (self.new.answer ≡ self.old.answer) }
        ensures marks { self.new.marks ≡ self.old.marks }
        ensures asked { asked_at self.new.watch ≡ asked_at self.old.watch }
    {
        self.settle(alloc)?;
        self.answer = self.caret_now(alloc, query)?;
        Ok(())
    }

    /// Wraps up to so many runs of lines that wait, of 128 lines at most each, and returns whether a line may still wait.
    pub fn wrap(&mut self, alloc: Global, runs: u32) -> Result<bool, Trouble>
        // What is wrapped, and why it fails.
        ensures wrapped { IsWrapped self.old.display self.new.display }
        ensures settled { IfOk result (λ waits. waits ≡ false
            → is_settled (present_of self.new.display) ≡ true) }
        ensures failed { IfErr result (IsUnwrapped self.new.display) }

        // What stays.
        ensures kept { self.new.answer ≡ self.old.answer }
        ensures marks { self.new.marks ≡ self.old.marks }
        ensures asked { asked_at self.new.watch ≡ asked_at self.old.watch }
    {
        self.display.wrap(alloc, runs, &mut self.watch)
    }

    /// Wraps all lines that wait.
    pub fn settle(&mut self, alloc: Global) -> Result<(), Trouble>
        // What is wrapped, and why it fails.
        ensures settled { OnOk result (IsSettled self.old.display self.new.display) }
        ensures wrapped { IsWrapped self.old.display self.new.display }
        ensures failed { IfErr result (IsUnwrapped self.new.display) }

        // What stays.
        ensures kept { self.new.answer ≡ self.old.answer }
        ensures marks { self.new.marks ≡ self.old.marks }
        ensures asked { asked_at self.new.watch ≡ asked_at self.old.watch }
    {
        self.display.settle(alloc, &mut self.watch)
    }

    /// The last answer.
    pub fn answer(&self) -> &str
        ensures { result.now ≡ string_bytes self.now.answer }
    {
        self.answer.as_str()
    }

    /// Copies bytes of the last answer, from byte `from` on, as many as there are and as fit. Returns the answer's length
    /// in bytes.
    pub fn copy_answer(&self, from: usize, out: &mut [u8]) -> usize
        ensures length { result ≡ length (string_bytes self.now.answer) }
        ensures copied { out.new ≡ filled_with (string_bytes self.now.answer) from out.old }
    {
        let bytes = self.answer.as_bytes();
        if from < bytes.len() {
            let left = bytes.len() - from;
            let count = if left < out.len() { left } else { out.len() };
            out[..count].copy_from_slice(&bytes[from..from + count]);
        }
        bytes.len()
    }

    /// How many bytes the text has.
    pub fn text_len(&self) -> Result<u32, NoMemory>
        ensures { IfOk result (λ bytes. bytes ≡ length (present_of self.now.display).text) }
    {
        Ok(text_len(&self.display.view()?))
    }

    /// Keeps the bytes of the text from `start` to `end` as the answer. `BadRange` unless these are boundaries in order.
    /// A call that fails leaves the session as it was.
    pub fn slice(&mut self, alloc: Global, start: u32, end: u32) -> Result<(), Trouble>
        // When it is done, and what is kept then.
        ensures accepted { OnOk result
            (slice_refusal (present_of self.old.display).text start end ≡ None) }
        ensures sliced { OnOk result (string_bytes self.new.answer
            ≡ slice_range (present_of self.old.display).text start end) }
        ensures display { self.new.display ≡ self.old.display }
        ensures marks { self.new.marks ≡ self.old.marks }
        ensures asked { asked_at self.new.watch ≡ asked_at self.old.watch }

        // Why it is refused, and that nothing is changed then.
        ensures refused { IfErr result
            (IsOwed (slice_refusal (present_of self.old.display).text start end)) }
        ensures unchanged { OnErr result (self.new ≡ self.old) }
    {
        let view = self.display.view()?;
        let text = text_between(alloc, &view, start, end)?;
        self.answer = String::from_str(alloc, text.as_str())?;
        Ok(())
    }

    /// How many rows there are.
    pub fn row_count(&self) -> Result<u32, NoMemory>
        ensures { IfOk result (λ count.
            count ≡ length (rows_of (present_of self.now.display))) }
    {
        Ok(self.display.view()?.row_count())
    }

    /// The kind of the row of this number, counted from 0, whose text is kept as the answer. `None` past the last row,
    /// where the last answer is still kept, as where there is no memory.
    pub fn row(&mut self, alloc: Global, row: u32) -> Result<Option<Kind>, NoMemory>
        // The row.
        ensures row { IfOk result (λ kind. option_map (row_of (string_bytes self.new.answer)) kind
            ≡ slice_get (rows_of (present_of self.old.display)) row) }

        // What stays.
        ensures past { IfOk result (λ kind. IfNone kind (self.new ≡ self.old)) }
        ensures display { self.new.display ≡ self.old.display }
        ensures marks { self.new.marks ≡ self.old.marks }
        ensures asked { asked_at self.new.watch ≡ asked_at self.old.watch }
        ensures unchanged { OnErr result (self.new ≡ self.old) }
    {
        let view = self.display.view()?;
        let Some(shown) = view.row(alloc, row, &mut Steps::new())? else {
            return Ok(None);
        };
        self.answer = String::from_str(alloc, shown.text.as_str())?;
        Ok(Some(shown.kind))
    }

    /// The pieces of the row of this number, counted from 0, whose texts are kept as the answer, one after another: the
    /// row's text. `None` past the last row, where the last answer is still kept, as where there is no memory.
    pub fn pieces(&mut self, alloc: Global, row: u32) -> Result<Option<Vec<LentPiece>>, NoMemory>
        // The row's pieces, and their texts.
        ensures pieces { IfOk result (λ lent. lent_items lent
            ≡ option_map (map lent_piece) (slice_get (pieces_in_rows (present_of self.old.display)) row)) }
        ensures texts { IfOk result (λ lent. IfSome lent (λ lent. string_bytes self.new.answer
            ≡ text_of (slice_index_or (pieces_in_rows (present_of self.old.display)) row []))) }

        // What stays.
        ensures past { IfOk result (λ lent. IfNone lent (self.new ≡ self.old)) }
        ensures display { self.new.display ≡ self.old.display }
        ensures marks { self.new.marks ≡ self.old.marks }
        ensures asked { asked_at self.new.watch ≡ asked_at self.old.watch }
        ensures unchanged { OnErr result (self.new ≡ self.old) }
    {
        let view = self.display.view()?;
        let Some(pieces) = pieces_of_row(alloc, &view, row, &mut Steps::new())? else {
            return Ok(None);
        };
        let lent = lent_pieces(alloc, &pieces)?;
        self.answer = joined_text(alloc, &pieces)?;
        Ok(Some(lent))
    }

    /// Keeps the rows from number `first` on, as many as there are up to `count`, as the lines that answer `rows` on the
    /// display as it is. Where there is no memory, the last answer is still kept.
    pub fn rows(&mut self, alloc: Global, first: u32, count: u32) -> Result<(), NoMemory>
        // The rows.
        ensures rows { OnOk result (string_bytes self.new.answer
            ≡ printed (lines_of self.old.display (Rows first count))) }

        // What stays.
        ensures display { self.new.display ≡ self.old.display }
        ensures marks { self.new.marks ≡ self.old.marks }
        ensures asked { asked_at self.new.watch ≡ asked_at self.old.watch }
        ensures unchanged { OnErr result (self.new ≡ self.old) }
    {
        self.answer = self.answer_now(alloc, &Query::Rows { first, count })?;
        Ok(())
    }

    /// Where an offset of the text is shown. `BadRange` where it is past the end or within a character.
    pub fn show(&self, alloc: Global, offset: u32, bias: Bias) -> Result<Spot, Trouble>
        ensures shown { IfOk result (λ spot.
            spot ≡ show (present_of self.now.display) offset bias) }
        ensures accepted { OnOk result
            (show_refusal (present_of self.now.display) offset ≡ None) }
        ensures refused { IfErr result
            (IsOwed (show_refusal (present_of self.now.display) offset)) }
    {
        let view = self.display.view()?;
        match view.show(alloc, offset, bias, &mut Steps::new()) {
            Ok(spot) => Ok(spot),
            Err(fault) => Err(fault.into()),
        }
    }

    /// The nearest spot at which some offset is shown, on the side of the bias.
    pub fn clip(&self, alloc: Global, spot: Spot, bias: Bias) -> Result<Spot, NoMemory>
        ensures { IfOk result (λ nearest.
            nearest ≡ clip (present_of self.now.display) spot bias) }
    {
        let view = self.display.view()?;
        view.clip(alloc, spot, bias, &mut Steps::new())
    }

    /// The least offset (Left) or the greatest (Right) that is shown at the nearest such spot.
    pub fn back(&self, alloc: Global, spot: Spot, bias: Bias) -> Result<u32, NoMemory>
        ensures { IfOk result (λ offset.
            offset ≡ back (present_of self.now.display) spot bias) }
    {
        let view = self.display.view()?;
        view.back(alloc, spot, bias, &mut Steps::new())
    }
}
