//! Values of a line: numbers, words and lists.
ghost use Rattle.std.specs.Prelude.{◌≡◌, length, map, option_map, IfOk};
ghost use Rattle.serde_json.specs.View.{view as data_of, items_view as data_of_items};
ghost use Rattle.edit_script.specs.Commands.{value_of, member_in, number_of, number_in, bias_in, side_in, motion_in, spot_of, texts_of_items, two_in, three_in, four_in};

use crate::key::{bias_of, motion_of, side_of};
use cell_units::{Bias, Motion, NoMemory, Side, Spot, Text};
use serde_json::Value;
use std::alloc::Global;

/// The value that a line is, if it is one JSON text.
pub(crate) fn value_of(alloc: Global, line: &str) -> Result<Option<Value>, NoMemory>
    ensures { IfOk result (λ value. option_map data_of value ≡ value_of line.now) }
{
    match Value::from_str(alloc, line) {
        Ok(value) => Ok(Some(value)),
        Err(error) => {
            if error.is_memory() {
                Err(NoMemory)
            } else {
                Ok(None)
            }
        }
    }
}

/// The key and the value of an object that has exactly one key.
pub(crate) fn member_in(value: &Value) -> Option<(&str, &Value)>
    ensures { option_map (λ p. (p.0.now, data_of p.1.now)) result ≡ member_in (data_of value.now) }
{
    let members = value.as_object()?;
    if members.len() != 1 {
        return None;
    }
    let (name, value) = members.first_key_value()?;
    Some((name.as_str(), value))
}

/// A number of up to 64 bits that is no id. One that doesn't fit 32 bits counts as the greatest that does.
pub(crate) fn number_in(value: &Value) -> Option<u32>
    ensures { result ≡ number_in (data_of value.now) }
{
    let number = value.as_u64()?;
    Some(number.min(u64::from(u32::MAX)) as u32)
}

/// An id as it is, of up to 64 bits.
pub(crate) fn id_in(value: &Value) -> Option<u64>
    ensures { result ≡ number_of (data_of value.now) }
{
    value.as_u64()
}

pub(crate) fn bias_in(value: &Value) -> Option<Bias>
    ensures { result ≡ bias_in (data_of value.now) }
{
    bias_of(value.as_str()?)
}

pub(crate) fn side_in(value: &Value) -> Option<Side>
    ensures { result ≡ side_in (data_of value.now) }
{
    side_of(value.as_str()?)
}

pub(crate) fn motion_in(value: &Value) -> Option<Motion>
    ensures { result ≡ motion_in (data_of value.now) }
{
    motion_of(value.as_str()?)
}

/// A spot of the display, by its row and its column.
pub(crate) fn spot_of(row: &Value, col: &Value) -> Option<Spot>
    ensures { result ≡ spot_of (data_of row.now) (data_of col.now) }
{
    let row = number_in(row)?;
    let col = number_in(col)?;
    Some(Spot { row, col })
}

/// The texts of a list.
pub(crate) fn texts_of(alloc: Global, items: &[Value]) -> Result<Option<Vec<Text>>, NoMemory>
    ensures { IfOk result
        (λ texts. option_map (λ v. v.items) texts ≡ texts_of_items (data_of_items items.now)) }
{
    let mut texts = Vec::with_capacity(alloc, items.len())?;
    for item in items {
        match item.as_str() {
            Some(text) => texts.push(Text::from_str(alloc, text)?)?,
            None => return Ok(None),
        }
    }
    Ok(Some(texts))
}

/// A list of two values.
pub(crate) fn two_in(value: &Value) -> Option<(&Value, &Value)>
    ensures { option_map (λ p. (data_of p.0.now, data_of p.1.now)) result
        ≡ two_in (data_of value.now) }
{
    match value.as_array()?.as_slice() {
        [a, b] => Some((a, b)),
        _ => None,
    }
}

/// A list of three values.
pub(crate) fn three_in(value: &Value) -> Option<(&Value, &Value, &Value)>
    ensures { option_map (λ p. (data_of p.0.now, data_of p.1.now, data_of p.2.now)) result
        ≡ three_in (data_of value.now) }
{
    match value.as_array()?.as_slice() {
        [a, b, c] => Some((a, b, c)),
        _ => None,
    }
}

/// A list of four values.
pub(crate) fn four_in(value: &Value) -> Option<(&Value, &Value, &Value, &Value)>
    ensures { option_map
        (λ p. (data_of p.0.now, data_of p.1.now, data_of p.2.now, data_of p.3.now)) result
        ≡ four_in (data_of value.now) }
{
    match value.as_array()?.as_slice() {
        [a, b, c, d] => Some((a, b, c, d)),
        _ => None,
    }
}
