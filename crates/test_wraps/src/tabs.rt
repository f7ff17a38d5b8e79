//! Lines of a text at a tab size, and which of them are new.
use crate::script::unwrapped;
use cell_line::Lines;
use cell_units::{Fault, NoMemory, Refusal, Steps};
use std::alloc::Global;
use std::test::Fail;
use tab_map::{TabMap, TabSnapshot};
use test_stages::LateText;
use test_support::told::{number, numbers, replaced};
use text_rope::Rope;

/// The cells of each element of a line, or `none` where there is no such line.
fn cells_of(alloc: Global, lines: &TabSnapshot<Rope>, line: u32) -> Result<String, NoMemory> {
    let mut all = String::new(alloc);
    if line >= lines.lines() {
        return number(alloc, None);
    }
    for element in lines.elements(alloc, line)? {
        let cells = number(alloc, Some(element.cells))?;
        all.push_str(cells.as_str())?;
    }
    Ok(all)
}

/// Which lines an edit replaced, and the cells of a line then.
fn edit(
    alloc: Global,
    late: &mut LateText,
    start: u32,
    end: u32,
    put: &str,
    line: u32,
) -> Result<String, Fault> {
    let change = late.replace(alloc, start, end, put, &mut Steps::new())?;
    let mut told = replaced(alloc, numbers(Some(change.run)))?;
    let cells = cells_of(alloc, late.text.lines.lines(), line)?;
    told.push_str("; ").map_err(NoMemory::from)?;
    told.push_str(cells.as_str()).map_err(NoMemory::from)?;
    Ok(told)
}

/// The same of a text.
fn edited(
    alloc: Global,
    text: &str,
    start: u32,
    end: u32,
    put: &str,
    line: u32,
) -> Result<String, Fail> {
    let mut late = unwrapped(alloc, text, 0)?;
    Ok(edit(alloc, &mut late, start, end, put, line)?)
}

/// One element in the place of a line and its feeds makes one line of three.
#[test]
fn three_lines_become_one(rt: HostRuntime) -> Result<(), Fail> {
    let told = edited(rt.alloc(), "fn f() {\n  a\n}\n", 8, 13, "⋯", 0)?;
    assert_eq!(rt; told.as_str(), "0..3 by 1; 1111111111");
    Ok(())
}

/// A feed at the end of a line makes two of it.
#[test]
fn one_line_becomes_two(rt: HostRuntime) -> Result<(), Fail> {
    let told = edited(rt.alloc(), "ab\ncd\nef", 5, 5, "\n", 2)?;
    assert_eq!(rt; told.as_str(), "1..2 by 2; ");
    Ok(())
}

/// A tab goes to the next stop, wherever an edit moves it.
#[test]
fn a_tab_goes_to_the_next_stop(rt: HostRuntime) -> Result<(), Fail> {
    let told = edited(rt.alloc(), "x\na\tb\t漢\n", 2, 3, "abc", 1)?;
    assert_eq!(rt; told.as_str(), "1..2 by 1; 1111132");
    Ok(())
}

/// A tab size is 1 to 16, and another one is refused.
#[test]
fn tab_sizes_past_the_limits_are_refused(rt: HostRuntime) -> Result<(), Fail> {
    let rope = Rope::from_bytes(rt.alloc(), b"\ta", &mut Steps::new())?;
    let mut map = TabMap::new(rope, 4);
    assert_eq!(rt; map.set_tab(17), Err(Refusal::BadNumber));
    assert_eq!(rt; map.set_tab(0), Err(Refusal::BadNumber));
    assert_eq!(rt; (map.set_tab(16), map.set_tab(1)), (Ok(()), Ok(())));
    Ok(())
}
