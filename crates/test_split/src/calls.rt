//! Each call once, on two views of one line.
ghost use Rattle.std.specs.Prelude.{◌≡◌, ◌<◌, ℕ, length};
ghost use Rattle.split_views.specs.Views.{history_of};
ghost use Rattle.split_views.specs.Wrapping.{IsIdle};

use crate::splits::{assert_events, operate, split_of};
use cell_units::{Fault, NoMemory, Refusal, Steps};
use display_map::{Kind, Op};
use split_views::{Split, idle_laws};
use std::alloc::Global;
use std::process::Abort;
use std::test::Fail;

/// Refuses a fold of nine bytes in the first view.
fn refuse(rt: &impl Abort, alloc: Global, split: &mut Split)
    requires { length split.old ≡ 2 }
    ensures len { length split.new ≡ 2 }
    ensures idle { (view : ℕ) → IsIdle (history_of split.old view) →
        IsIdle (history_of split.new view) }
{
    let fold = Op::Fold {
        id: 1,
        start: 0,
        end: 9,
    };
    let result = operate(rt, alloc, split, 0, fold);
    assert_eq!(rt; result, Err(Fault::Refused(Refusal::BadRange)));
}

/// Notes the first line of a script in the first view.
fn note(rt: &impl Abort, alloc: Global, split: &mut Split) -> Result<(), NoMemory>
    requires { length split.old ≡ 2 }
    ensures len { length split.new ≡ 2 }
    ensures idle { (view : ℕ) → IsIdle (history_of split.old view) →
        IsIdle (history_of split.new view) }
{
    // For the proof: no job is out after a line.
    idle_laws();
    assert!(rt; split.room() >= 1);
    split.note_line(alloc, 0, 1)
}

/// Publishes the second view, and returns the version's number.
fn publish(rt: &impl Abort, alloc: Global, split: &mut Split) -> Result<u64, NoMemory>
    requires { length split.old ≡ 2 }
    ensures len { length split.new ≡ 2 }
    ensures idle { (view : ℕ) → IsIdle (history_of split.old view) →
        IsIdle (history_of split.new view) }
{
    // For the proof: no job is out after a version.
    idle_laws();
    assert!(rt; split.room() >= 1);
    Ok(split.publish(alloc, 1, false)?.number())
}

/// Settles the second view and reads its row.
fn settle(rt: &impl Abort, alloc: Global, split: &mut Split) -> Result<(), Fail>
    requires len { length split.old ≡ 2 }
    requires idle { IsIdle (history_of split.old 1) }
{
    let mut steps = Steps::new();
    assert!(rt; split.settle(alloc, 1, &mut steps)?);
    let row = split.view(1)?.row(alloc, 0, &mut steps)?.ok_or("no row")?;
    assert_eq!(rt; row.text.as_str(), "abc");
    assert_eq!(rt; row.kind, Kind::Head);
    Ok(())
}

/// The calls in turn.
fn call_each(rt: &impl Abort, alloc: Global, split: &mut Split) -> Result<(), Fail>
    requires len { length split.old ≡ 2 }
    requires idle { IsIdle (history_of split.old 1) }
{
    refuse(rt, alloc, split);
    note(rt, alloc, split)?;
    assert_eq!(rt; publish(rt, alloc, split)?, 0);
    settle(rt, alloc, split)
}

#[test]
fn lines_versions_and_runs_stay_in_their_view(rt: HostRuntime) -> Result<(), Fail> {
    let alloc = rt.alloc();
    let mut split = split_of(alloc, "abc", 2)?;
    call_each(&rt, alloc, &mut split)?;
    let journals = split.into_journals();
    assert_eq!(rt; journals.len(), 2);
    assert_events(&rt, &journals[0], &["Line"]);
    let kinds = ["Published", "Sent", "Landed", "Published"];
    assert_events(&rt, &journals[1], &kinds);
    Ok(())
}
