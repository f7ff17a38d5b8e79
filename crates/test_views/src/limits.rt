//! Undo and redo of an edit of the longest text.
use crate::plays::written_by;
use cell_units::NoMemory;
use cell_units::limits::TEXT_LIMIT;
use std::alloc::Global;
use std::test::Fail;

/// The longest text, in lines of 63 letters.
fn longest(alloc: Global) -> Result<String, NoMemory> {
    let mut line = "a".repeat(alloc, 63)?;
    line.push('\n')?;
    Ok(line.repeat(alloc, TEXT_LIMIT / 64)?)
}

/// A letter goes and comes back, so that another one is too long. It goes again, and then another one has room.
const SCRIPT: &str = r#"0 {"edit":[[0,1,""]]}
undo
0 {"edit":[[0,0,"x"]]}
redo
0 {"edit":[[0,0,"x"]]}
0 {"rows":[0,1]}
"#;

#[test]
fn an_edit_of_the_longest_text_is_undone(rt: HostRuntime) -> Result<(), Fail> {
    let alloc = rt.alloc();
    let text = longest(alloc)?;
    let written = written_by(&rt, alloc, 1, text.as_str(), SCRIPT)?;
    let letters = "a".repeat(alloc, 62)?;
    assert_eq!(rt;
        written.as_str(),
        format!(in alloc; "0 ! 5\n0 0 t|x{letters}\n")?.as_str()
    );
    Ok(())
}
