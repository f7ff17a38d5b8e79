//! Runs of lines that land late, when lines were replaced or the width was set, and runs that are out.
use crate::script::Step::{
    Beside, Edit, Land, Marks, Next, Row, Rows, Settled, Take, Width, WrapAll,
};
use crate::script::{lines_of, play};
use cell_line::Run;
use std::test::Fail;

/// So many lines from the first on.
fn run(first: u32, count: u32) -> Run {
    Run { first, count }
}

/// Landed at once, each line of the run has its rows replaced by two.
#[test]
fn a_landing_replaces_the_rows_of_its_run(rt: HostRuntime) -> Result<(), Fail> {
    let text = lines_of(rt.alloc(), "aaa bbb", 10)?;
    let steps = [Take, Land, Rows, Marks, Next];
    let told = play(rt.alloc(), text.as_str(), 5, &steps)?;
    assert_eq!(rt; told.as_str(), "0..10; 0..10 to 0..20; 20; 0-9@5; none");
    Ok(())
}

/// A line that was changed and changed back is another one: it gets no cuts, and waits alone.
#[test]
fn a_line_that_was_changed_back_waits(rt: HostRuntime) -> Result<(), Fail> {
    let text = lines_of(rt.alloc(), "aaa bbb", 10)?;
    let steps = [
        Take,
        Edit(40, 41, "z"),
        Edit(40, 41, "a"),
        Land,
        Marks,
        Rows,
        Next,
    ];
    let told = play(rt.alloc(), text.as_str(), 5, &steps)?;
    assert_eq!(rt;
        told.as_str(),
        "0..10; 5..6 by 1; 5..6 by 1; 0..5 to 0..10, 6..10 to 11..19; 0-4@5 6-9@5; 19; 5..6"
    );
    Ok(())
}

/// Cuts land at the lines that they were made of, wherever these are now.
#[test]
fn cuts_land_at_lines_that_have_moved(rt: HostRuntime) -> Result<(), Fail> {
    let steps = [
        Take,
        Edit(0, 0, "p\nq\n"),
        Land,
        Marks,
        Rows,
        Row(2, 0),
        Row(3, 1),
        Next,
    ];
    let told = play(rt.alloc(), "a\naaa bbb\ncc dd ee", 5, &steps)?;
    assert_eq!(rt;
        told.as_str(),
        "0..3; 0..1 by 3; 3..5 to 3..7; 3-4@5; 7; a; bbb; 0..3"
    );
    Ok(())
}

/// What is left of a run when most of its lines are gone still lands.
#[test]
fn what_is_left_of_a_run_lands(rt: HostRuntime) -> Result<(), Fail> {
    let text = lines_of(rt.alloc(), "aaa bbb", 300)?;
    let steps = [
        Take,
        Edit(8, 1_000, "x\n"),
        Edit(0, 1, "z"),
        Land,
        Marks,
        Rows,
        Next,
    ];
    let told = play(rt.alloc(), text.as_str(), 5, &steps)?;
    assert_eq!(rt;
        told.as_str(),
        "0..128; 1..126 by 2; 0..1 by 1; 3..5 to 3..7; 3-4@5; 179; 0..3"
    );
    Ok(())
}

/// Cuts at another width than the present one land nowhere.
#[test]
fn a_run_of_another_width_lands_nowhere(rt: HostRuntime) -> Result<(), Fail> {
    let text = lines_of(rt.alloc(), "aaa bbb", 10)?;
    let steps = [Take, Width(6), Land, Marks, Next, Width(5), Land, Marks];
    let told = play(rt.alloc(), text.as_str(), 5, &steps)?;
    assert_eq!(rt;
        told.as_str(),
        "0..10; ok; none; none; 0..10; ok; 0..10 to 0..20; 0-9@5"
    );
    Ok(())
}

/// Lines that land apart are an edit each, and those that were replaced are none: no more edits than the run has lines.
#[test]
fn a_landing_has_no_more_edits_than_lines(rt: HostRuntime) -> Result<(), Fail> {
    let text = lines_of(rt.alloc(), "aaa bbb", 5)?;
    let apart = [Take, Edit(8, 9, "z"), Edit(24, 25, "z"), Land];
    let told = play(rt.alloc(), text.as_str(), 5, &apart)?;
    assert_eq!(rt;
        told.as_str(),
        "0..5; 1..2 by 1; 3..4 by 1; 0..1 to 0..2, 2..3 to 3..5, 4..5 to 6..8"
    );
    let none = [Take, Edit(0, 39, "z"), Land, Take, Land];
    let told = play(rt.alloc(), text.as_str(), 5, &none)?;
    assert_eq!(rt; told.as_str(), "0..5; 0..5 by 1; none; 0..1; 0..1 to 0..1");
    Ok(())
}

/// A map is settled where each line is wrapped at the width: not while one waits, and again at the width that they had.
#[test]
fn a_map_is_settled_where_no_line_waits(rt: HostRuntime) -> Result<(), Fail> {
    let text = lines_of(rt.alloc(), "aaa bbb", 300)?;
    let steps = [
        Settled,
        Take,
        Land,
        Settled,
        WrapAll,
        Settled,
        Edit(8, 9, "z"),
        Settled,
        WrapAll,
        Settled,
        Width(6),
        Settled,
        Width(5),
        Settled,
    ];
    let told = play(rt.alloc(), text.as_str(), 5, &steps)?;
    assert_eq!(rt;
        told.as_str(),
        "no; 0..128; 0..128 to 0..256; no; 2; yes; 2..4 by 1; no; 1; yes; ok; no; ok; yes"
    );
    let told = play(rt.alloc(), "aaa bbb\nx", 0, &[Settled, Width(5), Settled])?;
    assert_eq!(rt; told.as_str(), "yes; ok; no");
    Ok(())
}

/// A run that has landed may land again, and then leaves its lines as they are.
#[test]
fn a_run_may_land_twice(rt: HostRuntime) -> Result<(), Fail> {
    let steps = [Take, Land, Land, Rows];
    let told = play(rt.alloc(), "aaa bbb\nx", 5, &steps)?;
    assert_eq!(rt; told.as_str(), "0..2; 0..2 to 0..3; 0..3 to 0..3; 3");
    Ok(())
}

/// Lines that runs have which are out don't wait, and part those that do.
#[test]
fn lines_that_are_out_do_not_wait(rt: HostRuntime) -> Result<(), Fail> {
    let text = lines_of(rt.alloc(), "aaa bbb", 10)?;
    let steps = [
        Beside(run(0, 3), run(5, 2)),
        Beside(run(2, 3), run(5, 2)),
        Beside(run(0, 3), run(3, 7)),
        Beside(run(0, 0), run(12, 5)),
        WrapAll,
        Edit(40, 41, "z"),
        Beside(run(0, 1), run(6, 1)),
        Beside(run(0, 5), run(5, 1)),
    ];
    let told = play(rt.alloc(), text.as_str(), 5, &steps)?;
    assert_eq!(rt;
        told.as_str(),
        "3..5; 0..2; none; 0..10; 1; 10..12 by 1; 5..6; none"
    );
    Ok(())
}
