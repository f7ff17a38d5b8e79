//! Calls that read a display.
ghost use Rattle.std.specs.Prelude.{◌≡◌, ◌≤◌, ◌⊎◌, length, option_map, slice_get, slice_range, string_bytes, Some, None};
ghost use Rattle.cell_units.specs.Refusal.{number_of};
ghost use Rattle.plain_rows.specs.Rows.{rows_of};
ghost use Rattle.plain_rows.specs.Spots.{back, clip, show};
ghost use Rattle.display_sheet.specs.Shown.{show_refusal};
ghost use Rattle.display_map.specs.Replay.{present_of};
ghost use Rattle.edit_script.specs.declared.asked.Query.TheVariants.{Rows};
ghost use Rattle.edit_script.specs.Answers.{lines_of};
ghost use Rattle.display_session.specs.Answers.{printed};
ghost use Rattle.display_session.specs.Slices.{slice_refusal};
ghost use Rattle.display_ffi.specs.declared.status.TheConstants.{CLOSED, NO_MEMORY, NO_ROW, OK};
ghost use Rattle.display_ffi.specs.Biases.{bias_of};
ghost use Rattle.display_ffi.specs.Calls.{AskStays, Both};
ghost use Rattle.display_ffi.specs.Handles.{IsHandle};

use crate::handle::{Handle, put, take};
use crate::status::{CLOSED, NO_MEMORY, NO_ROW, OK, letter_of, status_of};
use cell_units::{Bias, Spot};
use std::alloc::Global;

/// A row of the display and a column of cells in it, as C has them.
#[repr(C)]
#[derive(Drop)]
pub struct Place {
    pub row: u32,
    pub column: u32,
}

/// The bias that C means by a flag.
pub(crate) fn bias(right: bool) -> Bias
    ensures { result ≡ bias_of right }
{
    if right { Bias::Right } else { Bias::Left }
}

/// How many bytes the text has.
#[unsafe(no_mangle)]
pub extern "C" fn displaymap_text_len(alloc: Global, handle: &mut Handle, bytes: &mut u32) -> u32
    requires { IsHandle handle.old }
    ensures handle { IsHandle handle.new }
    ensures kept { handle.new.kept.session ≡ handle.old.kept.session }
    ensures counted { result ≡ OK → Both
        (λ a b. bytes.new ≡ length (present_of a.display).text)
        handle.old.kept.session handle.new.kept.session }
    ensures failed { 1 ≤ result → Both (λ a b. result ≡ NO_MEMORY)
        handle.old.kept.session handle.new.kept.session }
    ensures untouched { 1 ≤ result → bytes.new ≡ bytes.old }
    ensures closed { handle.old.kept.session ≡ None → result ≡ CLOSED }
{
    let Some(session) = take(alloc, handle) else {
        return CLOSED;
    };
    let counted = session.text_len();
    put(handle, session);
    match counted {
        Ok(it) => {
            *bytes = it;
            OK
        }
        Err(_) => NO_MEMORY,
    }
}

/// Keeps the bytes of the text from `start` to `end` as the answer.
#[unsafe(no_mangle)]
pub extern "C" fn displaymap_slice(alloc: Global, handle: &mut Handle, start: u32, end: u32) -> u32
    requires { IsHandle handle.old }

    // What the handle holds then.
    ensures handle { IsHandle handle.new }
    ensures sliced { result ≡ OK → Both
        (λ a b. (b.display ≡ a.display) × (b.marks ≡ a.marks)
        × (slice_refusal (present_of a.display).text start end ≡ None)
        × (string_bytes b.answer ≡ slice_range (present_of a.display).text start end))
        handle.old.kept.session handle.new.kept.session }
    ensures asked { AskStays handle.old.kept.session handle.new.kept.session }

    // Why it fails, and what stays then.
    ensures refused { 1 ≤ result → result ≤ 8 → Both
        (λ a b. option_map number_of (slice_refusal (present_of a.display).text start end)
        ≡ Some result)
        handle.old.kept.session handle.new.kept.session }
    ensures failed { 1 ≤ result → handle.new.kept.session ≡ handle.old.kept.session }
    ensures closed { handle.old.kept.session ≡ None → result ≡ CLOSED }
    ensures open { result ≡ CLOSED → handle.old.kept.session ≡ None }
{
    let Some(mut session) = take(alloc, handle) else {
        return CLOSED;
    };
    let done = session.slice(alloc, start, end);
    put(handle, session);
    match done {
        Ok(()) => OK,
        Err(trouble) => status_of(trouble),
    }
}

/// How many rows there are.
#[unsafe(no_mangle)]
pub extern "C" fn displaymap_row_count(alloc: Global, handle: &mut Handle, count: &mut u32) -> u32
    requires { IsHandle handle.old }
    ensures handle { IsHandle handle.new }
    ensures kept { handle.new.kept.session ≡ handle.old.kept.session }
    ensures counted { result ≡ OK → Both
        (λ a b. count.new ≡ length (rows_of (present_of a.display)))
        handle.old.kept.session handle.new.kept.session }
    ensures failed { 1 ≤ result → Both (λ a b. result ≡ NO_MEMORY)
        handle.old.kept.session handle.new.kept.session }
    ensures untouched { 1 ≤ result → count.new ≡ count.old }
    ensures closed { handle.old.kept.session ≡ None → result ≡ CLOSED }
{
    let Some(session) = take(alloc, handle) else {
        return CLOSED;
    };
    let counted = session.row_count();
    put(handle, session);
    match counted {
        Ok(rows) => {
            *count = rows;
            OK
        }
        Err(_) => NO_MEMORY,
    }
}

/// The kind of a row, whose text is kept as the answer.
#[unsafe(no_mangle)]
pub extern "C" fn displaymap_row(
    alloc: Global,
    handle: &mut Handle,
    row: u32,
    kind: &mut u32,
) -> u32
    requires { IsHandle handle.old }

    // What the handle holds then, and what is written.
    ensures handle { IsHandle handle.new }
    ensures row { result ≡ OK → Both
        (λ a b. (b.display ≡ a.display) × (b.marks ≡ a.marks)
        × (slice_get (rows_of (present_of a.display)) row
        ≡ Some (record { kind = kind.new; text = string_bytes b.answer })))
        handle.old.kept.session handle.new.kept.session }
    ensures asked { AskStays handle.old.kept.session handle.new.kept.session }

    // Why it fails, and what stays then.
    ensures past { result ≡ NO_ROW → Both
        (λ a b. slice_get (rows_of (present_of a.display)) row ≡ None)
        handle.old.kept.session handle.new.kept.session }
    ensures failed { 1 ≤ result → Both
        (λ a b. (b ≡ a) × ((result ≡ NO_ROW) ⊎ (result ≡ NO_MEMORY)))
        handle.old.kept.session handle.new.kept.session }
    ensures untouched { 1 ≤ result → kind.new ≡ kind.old }
    ensures closed { handle.old.kept.session ≡ None → result ≡ CLOSED }
{
    let Some(mut session) = take(alloc, handle) else {
        return CLOSED;
    };
    let found = session.row(alloc, row);
    put(handle, session);
    match found {
        Ok(Some(it)) => {
            *kind = letter_of(it);
            OK
        }
        Ok(None) => NO_ROW,
        Err(_) => NO_MEMORY,
    }
}

/// Keeps rows as the answer, as the lines that a script prints for them.
#[unsafe(no_mangle)]
pub extern "C" fn displaymap_rows(alloc: Global, handle: &mut Handle, first: u32, count: u32) -> u32
    requires { IsHandle handle.old }

    // What the handle holds then.
    ensures handle { IsHandle handle.new }
    ensures rows { result ≡ OK → Both
        (λ a b. (b.display ≡ a.display) × (b.marks ≡ a.marks)
        × (string_bytes b.answer ≡ printed (lines_of a.display (Rows first count))))
        handle.old.kept.session handle.new.kept.session }
    ensures asked { AskStays handle.old.kept.session handle.new.kept.session }

    // Why it fails, and what stays then.
    ensures failed { 1 ≤ result → Both (λ a b. (b ≡ a) × (result ≡ NO_MEMORY))
        handle.old.kept.session handle.new.kept.session }
    ensures closed { handle.old.kept.session ≡ None → result ≡ CLOSED }
{
    let Some(mut session) = take(alloc, handle) else {
        return CLOSED;
    };
    let found = session.rows(alloc, first, count);
    put(handle, session);
    match found {
        Ok(()) => OK,
        Err(_) => NO_MEMORY,
    }
}

/// Where an offset of the text is shown.
#[unsafe(no_mangle)]
pub extern "C" fn displaymap_show(
    alloc: Global,
    handle: &mut Handle,
    offset: u32,
    right: bool,
    place: &mut Place,
) -> u32
    requires { IsHandle handle.old }
    ensures handle { IsHandle handle.new }
    ensures kept { handle.new.kept.session ≡ handle.old.kept.session }
    ensures shown { result ≡ OK → Both
        (λ a b. record { row = place.new.row; col = place.new.column }
        ≡ show (present_of a.display) offset (bias_of right))
        handle.old.kept.session handle.new.kept.session }
    ensures refused { 1 ≤ result → result ≤ 8 → Both
        (λ a b. option_map number_of (show_refusal (present_of a.display) offset) ≡ Some result)
        handle.old.kept.session handle.new.kept.session }
    ensures untouched { 1 ≤ result → place.new ≡ place.old }
    ensures closed { handle.old.kept.session ≡ None → result ≡ CLOSED }
    ensures open { result ≡ CLOSED → handle.old.kept.session ≡ None }
{
    let Some(session) = take(alloc, handle) else {
        return CLOSED;
    };
    let shown = session.show(alloc, offset, bias(right));
    put(handle, session);
    match shown {
        Ok(spot) => {
            place.row = spot.row;
            place.column = spot.col;
            OK
        }
        Err(trouble) => status_of(trouble),
    }
}

/// The nearest place at which some offset is shown.
#[unsafe(no_mangle)]
pub extern "C" fn displaymap_clip(
    alloc: Global,
    handle: &mut Handle,
    row: u32,
    column: u32,
    right: bool,
    place: &mut Place,
) -> u32
    requires { IsHandle handle.old }
    ensures handle { IsHandle handle.new }
    ensures kept { handle.new.kept.session ≡ handle.old.kept.session }
    ensures nearest { result ≡ OK → Both
        (λ a b. record { row = place.new.row; col = place.new.column }
        ≡ clip (present_of a.display) (record { row = row; col = column }) (bias_of right))
        handle.old.kept.session handle.new.kept.session }
    ensures failed { 1 ≤ result → Both (λ a b. result ≡ NO_MEMORY)
        handle.old.kept.session handle.new.kept.session }
    ensures untouched { 1 ≤ result → place.new ≡ place.old }
    ensures closed { handle.old.kept.session ≡ None → result ≡ CLOSED }
{
    let Some(session) = take(alloc, handle) else {
        return CLOSED;
    };
    let nearest = session.clip(alloc, Spot { row, col: column }, bias(right));
    put(handle, session);
    match nearest {
        Ok(spot) => {
            place.row = spot.row;
            place.column = spot.col;
            OK
        }
        Err(_) => NO_MEMORY,
    }
}

/// The offset that the nearest such place shows: the least for left, the greatest for right.
#[unsafe(no_mangle)]
pub extern "C" fn displaymap_back(
    alloc: Global,
    handle: &mut Handle,
    row: u32,
    column: u32,
    right: bool,
    offset: &mut u32,
) -> u32
    requires { IsHandle handle.old }
    ensures handle { IsHandle handle.new }
    ensures kept { handle.new.kept.session ≡ handle.old.kept.session }
    ensures offset { result ≡ OK → Both
        (λ a b. offset.new
        ≡ back (present_of a.display) (record { row = row; col = column }) (bias_of right))
        handle.old.kept.session handle.new.kept.session }
    ensures failed { 1 ≤ result → Both (λ a b. result ≡ NO_MEMORY)
        handle.old.kept.session handle.new.kept.session }
    ensures untouched { 1 ≤ result → offset.new ≡ offset.old }
    ensures closed { handle.old.kept.session ≡ None → result ≡ CLOSED }
{
    let Some(session) = take(alloc, handle) else {
        return CLOSED;
    };
    let shown = session.back(alloc, Spot { row, col: column }, bias(right));
    put(handle, session);
    match shown {
        Ok(it) => {
            *offset = it;
            OK
        }
        Err(_) => NO_MEMORY,
    }
}
