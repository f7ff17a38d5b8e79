//! Jobs that lie in one another: runs that are sent, changes between them, and results that land in another order.
use crate::play::{Step, play_on_maps};
use std::test::Fail;

/// The sixth of ten lines is made three, and then the second of these is changed. So the second job lies in the first
/// one, and the third in the second. A line at a width of 5 has two rows, `aaa ` and `bbb`.
#[test]
fn jobs_that_lie_in_one_another_land_from_the_middle_one_on(rt: HostRuntime) -> Result<(), Fail> {
    let steps = [
        Step::Send(0, 10),
        Step::Edit(40, 41, "aaa bbb\naaa bbb\na"),
        Step::Send(5, 3),
        Step::Edit(48, 49, "z"),
        Step::Send(6, 1),
        Step::Idle,
        Step::Land(2),
        Step::Marks(&[(5, 5, 5), (7, 7, 5)]),
        Step::Rows(14),
        Step::Land(1),
        Step::Marks(&[(0, 5, 5), (7, 11, 5)]),
        Step::Rows(23),
        Step::Land(3),
        Step::Marks(&[(0, 11, 5)]),
        Step::Rows(24),
    ];
    play_on_maps(&rt, rt.alloc(), ("aaa bbb", 10, 5), &steps)
}

/// A hundred of three hundred lines are removed, which are of two jobs. The line after them is touched.
#[test]
fn jobs_land_last_first_where_lines_of_two_are_gone(rt: HostRuntime) -> Result<(), Fail> {
    let steps = [
        Step::Send(0, 128),
        Step::Send(128, 128),
        Step::Send(256, 44),
        Step::Idle,
        Step::Edit(200, 400, ""),
        Step::Send(100, 1),
        Step::Land(3),
        Step::Marks(&[(156, 199, 40)]),
        Step::Land(4),
        Step::Marks(&[(100, 100, 40), (156, 199, 40)]),
        Step::Land(2),
        Step::Marks(&[(100, 199, 40)]),
        Step::Land(1),
        Step::Marks(&[(0, 199, 40)]),
        Step::Rows(200),
    ];
    play_on_maps(&rt, rt.alloc(), ("x", 300, 40), &steps)
}

/// The last line of one job and the first of the next are made one.
#[test]
fn a_line_that_is_joined_of_two_jobs_is_no_line_of_either(rt: HostRuntime) -> Result<(), Fail> {
    let steps = [
        Step::Send(0, 128),
        Step::Send(128, 2),
        Step::Edit(255, 256, ""),
        Step::Send(127, 1),
        Step::Idle,
        Step::Land(2),
        Step::Marks(&[(128, 128, 40)]),
        Step::Land(1),
        Step::Marks(&[(0, 126, 40), (128, 128, 40)]),
        Step::Land(3),
        Step::Marks(&[(0, 128, 40)]),
        Step::Rows(129),
    ];
    play_on_maps(&rt, rt.alloc(), ("x", 130, 40), &steps)
}

/// Jobs of two widths are out at once, and a line of the second one is changed. At 40 cells each line is one row.
#[test]
fn results_of_a_former_width_land_nowhere_beside_others(rt: HostRuntime) -> Result<(), Fail> {
    let steps = [
        Step::Send(0, 10),
        Step::Width(40),
        Step::Send(0, 10),
        Step::Edit(0, 0, "y"),
        Step::Send(0, 1),
        Step::Land(1),
        Step::Marks(&[]),
        Step::Land(2),
        Step::Marks(&[(1, 9, 40)]),
        Step::Width(5),
        Step::Send(0, 10),
        Step::Land(3),
        Step::Marks(&[(1, 9, 40)]),
        Step::Rows(10),
        Step::Land(4),
        Step::Marks(&[(0, 9, 5)]),
        Step::Rows(20),
    ];
    play_on_maps(&rt, rt.alloc(), ("aaa bbb", 10, 5), &steps)
}
