//! A view that is settled, beside one that isn't.
ghost use Rattle.std.specs.Prelude.{◌≡◌, length};
ghost use Rattle.split_views.specs.Views.{history_of};
ghost use Rattle.split_views.specs.Wrapping.{IsIdle};

use crate::splits::{assert_events, assert_rows, operate, split_of};
use cell_units::Steps;
use display_map::Op;
use split_views::Split;
use std::alloc::Global;
use std::process::Abort;
use std::test::Fail;

/// Sets the width of the second of two views, and settles it.
fn settle(rt: &impl Abort, alloc: Global, split: &mut Split) -> Result<(), Fail>
    requires len { length split.old ≡ 2 }
    requires idle { IsIdle (history_of split.old 1) }
{
    operate(rt, alloc, split, 1, Op::Width { cells: 5 })?;
    assert_rows(rt, alloc, split, 1, &["hello world"])?;
    assert!(rt; split.settle(alloc, 1, &mut Steps::new())?);
    assert_rows(rt, alloc, split, 0, &["hello world"])?;
    assert_rows(rt, alloc, split, 1, &["hello ", "world"])?;
    Ok(())
}

#[test]
fn one_view_is_wrapped_at_its_width(rt: HostRuntime) -> Result<(), Fail> {
    let alloc = rt.alloc();
    let mut split = split_of(alloc, "hello world", 2)?;
    settle(&rt, alloc, &mut split)?;
    let journals = split.into_journals();
    assert_eq!(rt; journals.len(), 2);
    assert_events(&rt, &journals[0], &[]);
    assert_events(
        &rt,
        &journals[1],
        &["Line", "Did", "Sent", "Landed", "Published"],
    );
    Ok(())
}
