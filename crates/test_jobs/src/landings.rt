//! Results that land one by one, and which lines they find.
use crate::play::{Step, play_on_maps};
use std::test::Fail;

/// Three hundred lines are wrapped, and then the line at byte 300 is changed.
#[test]
fn an_edit_takes_one_mark(rt: HostRuntime) -> Result<(), Fail> {
    let steps = [
        Step::Send(0, 128),
        Step::Land(1),
        Step::Send(128, 128),
        Step::Land(2),
        Step::Send(256, 44),
        Step::Land(3),
        Step::Idle,
        Step::Marks(&[(0, 299, 40)]),
        Step::Edit(300, 301, "y"),
        Step::Marks(&[(0, 149, 40), (151, 299, 40)]),
        Step::Send(150, 1),
        Step::Land(4),
        Step::Idle,
    ];
    play_on_maps(&rt, rt.alloc(), ("x", 300, 40), &steps)
}

/// A byte of the sixth of ten lines is changed and changed back. Each other line has two rows, `aaa ` and `bbb`.
#[test]
fn a_line_that_is_changed_and_changed_back_is_no_line_of_its_job(
    rt: HostRuntime,
) -> Result<(), Fail> {
    let steps = [
        Step::Send(0, 10),
        Step::Edit(40, 41, "z"),
        Step::Edit(40, 41, "a"),
        Step::Land(1),
        Step::Marks(&[(0, 4, 5), (6, 9, 5)]),
        Step::Rows(19),
        Step::Send(5, 1),
        Step::Land(2),
        Step::Rows(20),
    ];
    play_on_maps(&rt, rt.alloc(), ("aaa bbb", 10, 5), &steps)
}

#[test]
fn a_job_lands_at_its_width_that_is_set_again(rt: HostRuntime) -> Result<(), Fail> {
    let steps = [
        Step::Send(0, 10),
        Step::Width(60),
        Step::Width(40),
        Step::Idle,
        Step::Land(1),
        Step::Marks(&[(0, 9, 40)]),
    ];
    play_on_maps(&rt, rt.alloc(), ("aaa bbb", 10, 40), &steps)
}

/// Of two lines `ab` the first is shown as two, `ax` and `yb`.
#[test]
fn an_edit_of_an_inlay_with_a_line_break_takes_two_marks(rt: HostRuntime) -> Result<(), Fail> {
    let steps = [
        Step::Inlay(1, "x\ny"),
        Step::Send(0, 3),
        Step::Land(1),
        Step::Marks(&[(0, 2, 40)]),
        Step::Edit(2, 2, "z"),
        Step::Marks(&[(2, 2, 40)]),
    ];
    play_on_maps(&rt, rt.alloc(), ("ab", 2, 40), &steps)
}
