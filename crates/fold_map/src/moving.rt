//! A snapshot after a replacement of the lower layer.
ghost use Rattle.std.specs.Prelude.{◌≡◌, ◌+◌, ◌≤◌, ◌<◌, ◌^◌, Some, None, [], length, map, option_map, IfOk};
ghost use Rattle.std.specs.Option.{ForSome};
ghost use Rattle.cell_units.specs.BufferLines.{line_end, line_start};
ghost use Rattle.cell_units.specs.Layers.{shown_lines, shown_text, span_of, unfolded};
ghost use Rattle.joined_folds.specs.Sweeps.{fold_of};
ghost use Rattle.joined_folds.specs.Windows.{moved_on};
ghost use Rattle.mark_tree.specs.Bounds.{shrinking};
ghost use Rattle.edit_patch.specs.Leads.{reach_of};
ghost use Rattle.sum_tree.specs.Bounds.{TakesAtMost};
ghost use Rattle.fold_map.specs.Bounds.{folds_met, syncing, touched};
ghost use Rattle.fold_map.specs.Snapshots.{with_folds};
ghost use Rattle.fold_map.specs.Synced.{Follows, end_after, folds_after, layer_change, row_end_at, row_start_at, source_after};

use crate::met::Change;
use crate::snapshot::FoldSnapshot;
use cell_units::{Layer, NoMemory, Shift, Steps};
use mark_tree::RangeTree;
use std::alloc::Global;

impl<L: Layer> FoldSnapshot<L> {
    /// The same folds over a layer that shows the same.
    pub(crate) fn over(&self, layer: L) -> Result<FoldSnapshot<L>, NoMemory>
        requires follows { Follows self.now (L.source layer) None None }
        ensures ok { IfOk result (λ s. s ≡ with_folds (L.source layer) self.now.folds) }
    {
        // For the proof: the folds fit the text.
        let _len = self.text_len();
        Ok(FoldSnapshot {
            layer,
            folds: self.folds.share()?,
            splices: self.splices.share()?,
        })
    }

    /// The folds over a layer that replacements have made, moved as that of the buffer's text does, and what is
    /// replaced of what is shown.
    pub(crate) fn moved(
        &self,
        alloc: Global,
        layer: L,
        shift: Option<Shift>,
        below: Shift,
        steps: &mut Steps,
    ) -> Result<(FoldSnapshot<L>, Shift), NoMemory>
        // The new layer came of the old one by the two replacements, and the folds, moved, fit it.
        requires follows { let replaced = option_map reach_of shift in
            Follows self.now (L.source layer) replaced (Some (reach_of below)) }

        // The new layer under the moved folds. Replaced are the rows of the lines that the layer's replacement meets.
        ensures ok { let replaced = option_map reach_of shift in
            IfOk result (λ r. r.0 ≡ source_after (L.source layer) replaced self.now) }
        ensures change { IfOk result (λ r. reach_of r.1 ≡ layer_change self.now r.0 (reach_of below)) }

        // The work: the folds that the replacements meet are moved or joined anew.
        ensures counted { steps.old ≤ steps.new }
        ensures steps { let replaced = option_map reach_of shift in
            let k = folds_met replaced (Some (reach_of below)) self.now in
            TakesAtMost (syncing k) (length self.now.folds) steps.old steps.new }
    {
        // For the proof: the folds fit the text, and the new text's length is a u32.
        let _sizes = (self.text_len(), layer.buffer_len());
        let folds = self.moved_folds(alloc, shift, steps)?;
        let rows = rows_met(&self.layer, below.start, below.end);
        let change = Change {
            start: rows.start,
            end: rows.end,
            last: end_after(rows.end, shift),
        };
        let next = self.changed(alloc, layer, folds, change, steps)?;
        let replaced = self.change_to(&next, rows.start, rows.end, steps);
        Ok((next, replaced))
    }

    /// The folds after a replacement of the text, if there was one.
    fn moved_folds(
        &self,
        alloc: Global,
        shift: Option<Shift>,
        steps: &mut Steps,
    ) -> Result<RangeTree, NoMemory>
        // The replacement lies within the text, whose length after it is a u32 too.
        requires within { ForSome shift (λ s. s.end ≤ length self.now.text) }
        requires reaches { ForSome shift (λ s.
            moved_on s.end (s.start + s.count) (length self.now.text) < 2 ^ 32) }

        // All folds, moved. They stay where nothing was replaced.
        ensures ok { let replaced = option_map reach_of shift in
            IfOk result (λ t. map fold_of t ≡ folds_after replaced self.now.folds) }

        // The work: each fold of which the replacement meets a byte or an end is set anew.
        ensures counted { steps.old ≤ steps.new }
        ensures steps { let k = touched (option_map reach_of shift) self.now.folds in
            TakesAtMost (shrinking k) (length self.now.folds) steps.old steps.new }
    {
        // For the proof: the folds are within the text.
        let _len = self.text_len();
        let mut folds = self.folds.share()?;
        match shift {
            None => Ok(folds),
            Some(shift) => {
                folds.apply(alloc, shift, steps)?;
                Ok(folds)
            }
        }
    }
}

/// Rows of the buffer, by the first offset of the first and the end of the last.
#[derive(Drop)]
struct Rows {
    start: u32,
    end: u32,
}

/// The rows of the lines from that of a place to that of a later one.
fn rows_met<L: Layer>(layer: &L, start: u32, end: u32) -> Rows
    requires order { start ≤ end }
    requires within { end ≤ length (shown_text (L.source layer.now)) }
    ensures start { result.start ≡ row_start_at (L.source layer.now) start }
    ensures end { result.end ≡ row_end_at (L.source layer.now) end }
{
    // For the proof: the inlays and the folds fit the text.
    let _len = layer.buffer_len();
    let first = layer.point(start).row;
    let last = layer.point(end).row;
    let rows = rows_of(layer, first);
    // Mostly they are those of one line.
    if first == last {
        return rows;
    }
    Rows {
        start: rows.start,
        end: rows_of(layer, last).end,
    }
}

/// The rows of a line.
fn rows_of<L: Layer>(layer: &L, line: u32) -> Rows
    requires { line < length (shown_lines (L.source layer.now)) }
    ensures start { let s = L.source layer.now in
        result.start ≡ line_start s.text (span_of s line).0 }
    ensures end { let s = L.source layer.now in
        result.end ≡ line_end s.text (span_of s line).1 }
{
    // For the proof: the inlays and the folds fit the text.
    let _len = layer.buffer_len();
    let span = layer.span(line);
    let first = layer.row_range(span.0);
    // Mostly the line has one row.
    let last = if span.0 == span.1 {
        first
    } else {
        layer.row_range(span.1)
    };
    Rows {
        start: first.0,
        end: last.1,
    }
}

/// Where the end of a row goes that a replacement is not after, if there was one.
fn end_after(end: u32, shift: Option<Shift>) -> u32
    requires within { ForSome shift (λ s. s.end ≤ end) }
    requires reaches { end_after (option_map reach_of shift) end < 2 ^ 32 }
    ensures { result ≡ end_after (option_map reach_of shift) end }
{
    match shift {
        None => end,
        Some(shift) => end - shift.end + (shift.start + shift.count),
    }
}
