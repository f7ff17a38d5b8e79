//! A batch that goes over the limit of a text between two of its operations.
use cell_units::{Bias, Fault, NoMemory, Steps, Text};
use display_map::{Change, DisplayOn, Splice};
use kept_sheet::{PlainSheet, Sheet};
use map_sheet::MapSheet;
use std::alloc::Global;
use std::process::Abort;
use std::test::Fail;

/// The greatest length of a text, in bytes.
const MOST: u32 = 33_554_432;

/// How many bytes are put in and taken away.
const MOVED: u32 = 1_048_576;

/// A text of as many bytes, in lines of sixty-four.
fn lines(alloc: Global, bytes: u32) -> Result<String, NoMemory> {
    let mut text = String::new(alloc);
    for _ in 0..bytes / 64 {
        text.push_str("some words and a tab\tin a line of just sixty-four bytes. 012345\n")?;
    }
    Ok(text)
}

/// Takes bytes away at the start of a text of the greatest length, and puts as many in at its end.
fn splices(alloc: Global) -> Result<Vec<Splice>, NoMemory> {
    let none = Text::from_str(alloc, "")?;
    let many = Text::from_str(alloc, lines(alloc, MOVED)?.as_str())?;
    let first = Splice {
        start: 0,
        end: MOVED,
        text: none,
    };
    let last = Splice {
        start: MOST,
        end: MOST,
        text: many,
    };
    Ok(vec![in alloc; first, last]?)
}

/// Does that. Its second replacement is done first.
fn moved<S: Sheet>(
    rt: &impl Abort,
    alloc: Global,
    display: &mut DisplayOn<S>,
) -> Result<(), Fault> {
    let splices = splices(alloc)?;
    assert!(rt; splices.len() <= 2000);
    assert!(rt; display.room() >= 2000);
    display.apply(alloc, &Change::Edit(splices), &mut Steps::new())
}

/// How many rows a display of the greatest text has before and after that, and where the end is shown.
fn after<S: Sheet>(rt: &impl Abort, alloc: Global, text: &str) -> Result<[u32; 4], Fail> {
    let mut display = DisplayOn::<S>::start(alloc, text.as_bytes(), &mut Steps::new())?;
    let before = display.view()?.row_count();
    moved(rt, alloc, &mut display)?;
    let view = display.view()?;
    let end = view.show(alloc, MOST, Bias::Left, &mut Steps::new())?;
    Ok([before, view.row_count(), end.row, end.col])
}

#[test]
fn a_batch_may_be_over_the_limit_between_its_operations(rt: HostRuntime) -> Result<(), Fail> {
    let alloc = rt.alloc();
    let text = lines(alloc, MOST)?;
    assert_eq!(rt; text.len(), MOST as usize);
    let expected = [524_289, 524_289, 524_288, 0];
    assert_eq!(rt; after::<PlainSheet>(&rt, alloc, text.as_str())?, expected);
    assert_eq!(rt; after::<MapSheet>(&rt, alloc, text.as_str())?, expected);
    Ok(())
}
