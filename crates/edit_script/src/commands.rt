//! The command of each key and its value.
ghost use Rattle.std.specs.Prelude.{◌≡◌, ◌≤◌, true, false, nat_lt, map, option_map, option_and_then, IfOk, IfSome, IfNone};
ghost use Rattle.serde_json.specs.View.{view as data_of, items_view as data_of_items};
ghost use Rattle.cell_units.specs.Operation.{AddInlay, RemoveInlay, AddFold, RemoveFold, AddBlock, RemoveBlock, SetTab, SetWidth};
ghost use Rattle.display_sheet.specs.Changes.{inlay_of, fold_of};
ghost use Rattle.display_map.specs.Replay.{present_of};
ghost use Rattle.display_sheet.specs.declared.change.Change.TheVariants as changes;
ghost use Rattle.edit_script.specs.declared.asked.Asked.TheVariants as asks;
ghost use Rattle.edit_script.specs.declared.asked.Query.TheVariants as queries;
ghost use Rattle.edit_script.specs.Commands.{Ask, AskCaret, greatest_number, place_in, point_in, offset_in, splice_of, splices_of_items, edit_in, one, inlay_in, fold_in, block_in, remove_in, set_in, settle_in, numbers_in, rows_in, show_in, aim_in, spot_in, move_in, select_in, texts_of_items, command_at};
ghost use Rattle.edit_script.specs.Verdict.{IsReadAs};

use crate::asked::{Asked, CaretQuery, Form, Query};
use crate::key::Key;
use crate::read::Unread;
use crate::values::{
    bias_in, four_in, id_in, motion_in, number_in, side_in, spot_of, texts_of, three_in, two_in,
};
use cell_units::{Bias, NoMemory, Point, Side, Spot, Steps, Text};
use display_map::{Change, Op, Splice, View};
use serde_json::Value;
use std::alloc::Global;

/// The command of a key and its value.
pub(crate) fn command_at(
    alloc: Global,
    key: Key,
    value: &Value,
    form: Form,
    view: &View,
    steps: &mut Steps,
) -> Result<Asked, Unread>
    ensures read { IsReadAs (command_at form (present_of view.now).text key (data_of value.now))
        result }
    ensures counted { steps.old ≤ steps.new }
{
    match key {
        Key::Edit => edit_in(alloc, value, form, view, steps),
        Key::Inlay => inlay_in(alloc, value, form, view, steps),
        Key::Uninlay => uninlay_in(value),
        Key::Fold => fold_in(value, form, view, steps),
        Key::Unfold => unfold_in(value),
        Key::Block => block_in(alloc, value),
        Key::Unblock => unblock_in(value),
        Key::Tab => tab_in(value),
        Key::Width => width_in(value),
        Key::Settle => settle_in(value),
        Key::Rows => rows_in(value),
        Key::Peek => peek_in(value),
        Key::Display => display_in(value, form, view, steps),
        Key::Buffer => buffer_in(value),
        Key::Clip => clip_in(value),
        Key::Move => about_caret(move_in(value)),
        Key::Select => about_caret(select_in(value)),
    }
}

/// One operation.
fn one(op: Op) -> Asked
    ensures { result ≡ asks.Change (changes.One op) }
{
    Asked::Change(Change::One(op))
}

/// An offset of the text: a number, or in the second form also a point.
fn place_in(value: &Value, form: Form, view: &View, steps: &mut Steps) -> Option<u32>
    ensures place { result ≡ place_in form (present_of view.now).text (data_of value.now) }
    ensures counted { steps.old ≤ steps.new }
{
    match form {
        Form::First => number_in(value),
        Form::Second => match number_in(value) {
            Some(offset) => Some(offset),
            None => offset_in(value, view, steps),
        },
    }
}

/// The offset that a point names.
fn offset_in(value: &Value, view: &View, steps: &mut Steps) -> Option<u32>
    ensures offset { result ≡ offset_in (present_of view.now).text (data_of value.now) }
    ensures counted { steps.old ≤ steps.new }
{
    let (point, bias) = point_in(value)?;
    Some(view.offset_of(point, bias, steps))
}

/// A point, `[row, column, bias]`.
fn point_in(value: &Value) -> Option<(Point, Bias)>
    ensures { result ≡ point_in (data_of value.now) }
{
    let (row, column, bias) = three_in(value)?;
    let row = number_in(row)?;
    let column = number_in(column)?;
    Some((Point { row, column }, bias_in(bias)?))
}

/// An id, if it is at most 4,294,967,295.
fn fitting(id: u64) -> Option<u32>
    ensures fits { IfSome result (λ n. n ≡ id) }
    ensures within { IfSome result (λ n. nat_lt greatest_number n ≡ false) }
    ensures over { IfNone result (nat_lt greatest_number id ≡ true) }
{
    u32::try_from(id).ok()
}

/// A list of replacements.
fn edit_in(
    alloc: Global,
    value: &Value,
    form: Form,
    view: &View,
    steps: &mut Steps,
) -> Result<Asked, Unread>
    ensures read { IsReadAs (edit_in form (present_of view.now).text (data_of value.now)) result }
    ensures counted { steps.old ≤ steps.new }
{
    let Some(items) = value.as_array() else {
        return Err(Unread::NoForm);
    };
    match splices_in(alloc, items, form, view, steps)? {
        Some(splices) => Ok(Asked::Change(Change::Edit(splices))),
        None => Err(Unread::NoForm),
    }
}

fn splices_in(
    alloc: Global,
    items: &[Value],
    form: Form,
    view: &View,
    steps: &mut Steps,
) -> Result<Option<Vec<Splice>>, NoMemory>
    ensures splices { IfOk result (λ splices. option_map (λ v. v.items) splices
        ≡ splices_of_items form (present_of view.now).text (data_of_items items.now)) }
    ensures counted { steps.old ≤ steps.new }
{
    let mut splices = Vec::with_capacity(alloc, items.len())?;
    for item in items {
        match splice_in(alloc, item, form, view, steps)? {
            Some(splice) => splices.push(splice)?,
            None => return Ok(None),
        }
    }
    Ok(Some(splices))
}

/// A replacement, `[start, end, text]`.
fn splice_in(
    alloc: Global,
    value: &Value,
    form: Form,
    view: &View,
    steps: &mut Steps,
) -> Result<Option<Splice>, NoMemory>
    ensures splice { IfOk result
        (λ splice. splice ≡ splice_of form (present_of view.now).text (data_of value.now)) }
    ensures counted { steps.old ≤ steps.new }
{
    match splice_parts(value, form, view, steps) {
        Some((start, end, text)) => {
            let text = Text::from_str(alloc, text)?;
            Ok(Some(Splice { start, end, text }))
        }
        None => Ok(None),
    }
}

fn splice_parts<'a>(
    value: &'a Value,
    form: Form,
    view: &View,
    steps: &mut Steps,
) -> Option<(u32, u32, &'a str)>
    ensures parts { option_map (λ p. record { start = p.0; end = p.1; text = p.2.now }) result
        ≡ splice_of form (present_of view.now).text (data_of value.now) }
    ensures counted { steps.old ≤ steps.new }
{
    let (start, end, text) = three_in(value)?;
    Some((
        place_in(start, form, view, steps)?,
        place_in(end, form, view, steps)?,
        text.as_str()?,
    ))
}

/// An inlay, `[id, offset, bias, text]`.
fn inlay_in(
    alloc: Global,
    value: &Value,
    form: Form,
    view: &View,
    steps: &mut Steps,
) -> Result<Asked, Unread>
    ensures read { IsReadAs (inlay_in form (present_of view.now).text (data_of value.now)) result }
    ensures counted { steps.old ≤ steps.new }
{
    let Some((id, offset, bias, text)) = inlay_parts(value, form, view, steps) else {
        return Err(Unread::NoForm);
    };
    let Some(id) = fitting(id) else {
        return Err(Unread::IdOver);
    };
    let text = Text::from_str(alloc, text)?;
    Ok(one(Op::Inlay {
        id,
        offset,
        bias,
        text,
    }))
}

fn inlay_parts<'a>(
    value: &'a Value,
    form: Form,
    view: &View,
    steps: &mut Steps,
) -> Option<(u64, u32, Bias, &'a str)>
    ensures parts { option_map (λ p. one (AddInlay (inlay_of p.0 p.1 p.2 p.3.now))) result
        ≡ inlay_in form (present_of view.now).text (data_of value.now) }
    ensures counted { steps.old ≤ steps.new }
{
    let (id, offset, bias, text) = four_in(value)?;
    Some((
        id_in(id)?,
        place_in(offset, form, view, steps)?,
        bias_in(bias)?,
        text.as_str()?,
    ))
}

/// The id of an inlay that is taken away.
fn uninlay_in(value: &Value) -> Result<Asked, Unread>
    ensures { IsReadAs (remove_in RemoveInlay (data_of value.now)) result }
{
    let Some(id) = id_in(value) else {
        return Err(Unread::NoForm);
    };
    let Some(id) = fitting(id) else {
        return Err(Unread::IdOver);
    };
    Ok(one(Op::Uninlay { id }))
}

/// A fold, `[id, start, end]`.
fn fold_in(value: &Value, form: Form, view: &View, steps: &mut Steps) -> Result<Asked, Unread>
    ensures read { IsReadAs (fold_in form (present_of view.now).text (data_of value.now)) result }
    ensures counted { steps.old ≤ steps.new }
{
    let Some((id, start, end)) = fold_parts(value, form, view, steps) else {
        return Err(Unread::NoForm);
    };
    let Some(id) = fitting(id) else {
        return Err(Unread::IdOver);
    };
    Ok(one(Op::Fold { id, start, end }))
}

fn fold_parts(value: &Value, form: Form, view: &View, steps: &mut Steps) -> Option<(u64, u32, u32)>
    ensures parts { option_map (λ p. one (AddFold (fold_of p.0 p.1 p.2))) result
        ≡ fold_in form (present_of view.now).text (data_of value.now) }
    ensures counted { steps.old ≤ steps.new }
{
    let (id, start, end) = three_in(value)?;
    Some((
        id_in(id)?,
        place_in(start, form, view, steps)?,
        place_in(end, form, view, steps)?,
    ))
}

/// The id of a fold that is taken away.
fn unfold_in(value: &Value) -> Result<Asked, Unread>
    ensures { IsReadAs (remove_in RemoveFold (data_of value.now)) result }
{
    let Some(id) = id_in(value) else {
        return Err(Unread::NoForm);
    };
    let Some(id) = fitting(id) else {
        return Err(Unread::IdOver);
    };
    Ok(one(Op::Unfold { id }))
}

/// A block, `[id, side, row, lines]`.
fn block_in(alloc: Global, value: &Value) -> Result<Asked, Unread>
    ensures { IsReadAs (block_in (data_of value.now)) result }
{
    let Some((id, side, row, lines)) = block_parts(value) else {
        return Err(Unread::NoForm);
    };
    let Some(lines) = texts_of(alloc, lines)? else {
        return Err(Unread::NoForm);
    };
    let Some(id) = fitting(id) else {
        return Err(Unread::IdOver);
    };
    Ok(one(Op::Block {
        id,
        side,
        row,
        lines,
    }))
}

fn block_parts(value: &Value) -> Option<(u64, Side, u32, &[Value])>
    ensures { option_and_then (λ p. option_map (λ lines. one (AddBlock p.2 p.0 p.1 lines))
        (texts_of_items (data_of_items p.3.now))) result ≡ block_in (data_of value.now) }
{
    let (id, side, row, lines) = four_in(value)?;
    Some((
        id_in(id)?,
        side_in(side)?,
        number_in(row)?,
        lines.as_array()?.as_slice(),
    ))
}

/// The id of a block that is taken away.
fn unblock_in(value: &Value) -> Result<Asked, Unread>
    ensures { IsReadAs (remove_in RemoveBlock (data_of value.now)) result }
{
    let Some(id) = id_in(value) else {
        return Err(Unread::NoForm);
    };
    let Some(id) = fitting(id) else {
        return Err(Unread::IdOver);
    };
    Ok(one(Op::Unblock { id }))
}

/// A tab size.
fn tab_in(value: &Value) -> Result<Asked, Unread>
    ensures { IsReadAs (set_in SetTab (data_of value.now)) result }
{
    match number_in(value) {
        Some(size) => Ok(one(Op::Tab { size })),
        None => Err(Unread::NoForm),
    }
}

/// A width.
fn width_in(value: &Value) -> Result<Asked, Unread>
    ensures { IsReadAs (set_in SetWidth (data_of value.now)) result }
{
    match number_in(value) {
        Some(cells) => Ok(one(Op::Width { cells })),
        None => Err(Unread::NoForm),
    }
}

/// The wish that is `true`.
fn settle_in(value: &Value) -> Result<Asked, Unread>
    ensures { IsReadAs (settle_in (data_of value.now)) result }
{
    match value.as_bool() {
        Some(true) => Ok(Asked::Settle),
        _ => Err(Unread::NoForm),
    }
}

/// `[first, count]`.
fn numbers_in(value: &Value) -> Option<(u32, u32)>
    ensures { result ≡ numbers_in (data_of value.now) }
{
    let (first, count) = two_in(value)?;
    Some((number_in(first)?, number_in(count)?))
}

fn rows_in(value: &Value) -> Result<Asked, Unread>
    ensures { IsReadAs (rows_in queries.Rows (data_of value.now)) result }
{
    match numbers_in(value) {
        Some((first, count)) => Ok(Asked::Query(Query::Rows { first, count })),
        None => Err(Unread::NoForm),
    }
}

fn peek_in(value: &Value) -> Result<Asked, Unread>
    ensures { IsReadAs (rows_in queries.Peek (data_of value.now)) result }
{
    match numbers_in(value) {
        Some((first, count)) => Ok(Asked::Query(Query::Peek { first, count })),
        None => Err(Unread::NoForm),
    }
}

/// `[offset, bias]`.
fn shown_in(value: &Value, form: Form, view: &View, steps: &mut Steps) -> Option<(u32, Bias)>
    ensures parts { option_map (λ p. Ask (queries.Show p.0 p.1)) result
        ≡ show_in form (present_of view.now).text (data_of value.now) }
    ensures counted { steps.old ≤ steps.new }
{
    let (offset, bias) = two_in(value)?;
    Some((place_in(offset, form, view, steps)?, bias_in(bias)?))
}

fn display_in(value: &Value, form: Form, view: &View, steps: &mut Steps) -> Result<Asked, Unread>
    ensures read { IsReadAs (show_in form (present_of view.now).text (data_of value.now)) result }
    ensures counted { steps.old ≤ steps.new }
{
    match shown_in(value, form, view, steps) {
        Some((offset, bias)) => Ok(Asked::Query(Query::Show { offset, bias })),
        None => Err(Unread::NoForm),
    }
}

/// `[row, col, bias]`.
fn aim_in(value: &Value) -> Option<(Spot, Bias)>
    ensures { result ≡ aim_in (data_of value.now) }
{
    let (row, col, bias) = three_in(value)?;
    let spot = spot_of(row, col)?;
    Some((spot, bias_in(bias)?))
}

fn buffer_in(value: &Value) -> Result<Asked, Unread>
    ensures { IsReadAs (spot_in queries.Back (data_of value.now)) result }
{
    match aim_in(value) {
        Some((spot, bias)) => Ok(Asked::Query(Query::Back { spot, bias })),
        None => Err(Unread::NoForm),
    }
}

fn clip_in(value: &Value) -> Result<Asked, Unread>
    ensures { IsReadAs (spot_in queries.Clip (data_of value.now)) result }
{
    match aim_in(value) {
        Some((spot, bias)) => Ok(Asked::Query(Query::Clip { spot, bias })),
        None => Err(Unread::NoForm),
    }
}

/// A question about a caret or a selection, where a value has the form of one.
fn about_caret(query: Option<CaretQuery>) -> Result<Asked, Unread>
    ensures { IsReadAs (option_map AskCaret query) result }
{
    match query {
        Some(query) => Ok(Asked::Caret(query)),
        None => Err(Unread::NoForm),
    }
}

/// `[row, col, goal, motion]`.
fn move_in(value: &Value) -> Option<CaretQuery>
    ensures { result ≡ move_in (data_of value.now) }
{
    let (row, col, goal, motion) = four_in(value)?;
    let from = spot_of(row, col)?;
    let goal = number_in(goal)?;
    let motion = motion_in(motion)?;
    Some(CaretQuery::Move { from, goal, motion })
}

/// `[row, col, row, col]`.
fn select_in(value: &Value) -> Option<CaretQuery>
    ensures { result ≡ select_in (data_of value.now) }
{
    let (row, col, other_row, other_col) = four_in(value)?;
    let one = spot_of(row, col)?;
    let other = spot_of(other_row, other_col)?;
    Some(CaretQuery::Select { one, other })
}
