//! Edits go to every view, and other changes stay in theirs.
ghost use Rattle.std.specs.Prelude.{◌≡◌, length};

use crate::splits::{assert_events, assert_rows, operate, put, split_of};
use cell_units::{Fault, NoMemory, Refusal};
use display_map::{Journal, Op};
use split_views::Split;
use std::alloc::Global;
use std::process::Abort;
use std::test::Fail;

/// Folds the first line of two in the first view.
fn fold(rt: &impl Abort, alloc: Global, split: &mut Split) -> Result<(), Fail>
    requires { length split.old ≡ 2 }
    ensures { length split.new ≡ 2 }
{
    let fold = Op::Fold {
        id: 1,
        start: 0,
        end: 1,
    };
    operate(rt, alloc, split, 0, fold)?;
    assert_rows(rt, alloc, split, 0, &["⋯", "b"])?;
    assert_rows(rt, alloc, split, 1, &["a", "b"])?;
    Ok(())
}

/// Puts a letter at the end of the text from the second view, which has no fold that it could take away.
fn write(rt: &impl Abort, alloc: Global, split: &mut Split) -> Result<(), Fail>
    requires { length split.old ≡ 2 }
{
    put(rt, alloc, split, 1, 3, "c")?;
    assert_rows(rt, alloc, split, 0, &["⋯", "bc"])?;
    assert_rows(rt, alloc, split, 1, &["a", "bc"])?;
    let result = operate(rt, alloc, split, 1, Op::Unfold { id: 1 });
    assert_eq!(rt; result, Err(Fault::Refused(Refusal::UnknownId)));
    Ok(())
}

#[test]
fn two_views_share_a_text_and_no_fold(rt: HostRuntime) -> Result<(), Fail> {
    let alloc = rt.alloc();
    let mut split = split_of(alloc, "a\nb", 2)?;
    fold(&rt, alloc, &mut split)?;
    write(&rt, alloc, &mut split)?;
    let journals = split.into_journals();
    assert_eq!(rt; journals.len(), 2);
    assert_events(&rt, &journals[0], &["Line", "Did", "Line", "Did"]);
    assert_events(&rt, &journals[1], &["Line", "Did"]);
    Ok(())
}

/// There are eight journals, of events of these kinds each.
fn assert_eight(rt: &impl Abort, journals: &[Journal], kinds: &[&str]) {
    assert_eq!(rt; journals.len(), 8);
    for journal in journals {
        assert_events(rt, journal, kinds);
    }
}

#[test]
fn an_edit_goes_to_all_of_eight_views(rt: HostRuntime) -> Result<(), Fail> {
    let alloc = rt.alloc();
    let mut split = split_of(alloc, "abc", 8)?;
    put(&rt, alloc, &mut split, 5, 1, "x")?;
    assert_rows(&rt, alloc, &split, 0, &["axbc"])?;
    assert_rows(&rt, alloc, &split, 7, &["axbc"])?;
    assert_eight(&rt, &split.into_journals(), &["Line", "Did"]);
    Ok(())
}

#[test]
fn an_edit_that_is_refused_is_in_no_view(rt: HostRuntime) -> Result<(), Fail> {
    let alloc = rt.alloc();
    let mut split = split_of(alloc, "abc", 8)?;
    let result = put(&rt, alloc, &mut split, 5, 9, "x");
    assert_eq!(rt; result, Err(Fault::Refused(Refusal::BadRange)));
    assert_eight(&rt, &split.into_journals(), &[]);
    Ok(())
}
