//! What is seen of both displays is the same.
use crate::play::played;
use kept_sheet::PlainSheet;
use map_sheet::MapSheet;
use std::alloc::Global;
use std::process::Abort;
use std::test::Fail;

/// Lines with a tab, wide characters, flags, accents, a zero-width space and words that are wrapped, and an empty one.
const TEXT: &str =
    "fn main() {\n\tlet x = 1;\n\n  a long line of words that is wrapped\n\u{6f22}\u{5b57}\u{304b} wide \u{6f22}\n\u{1f1e9}\u{1f1ea}\u{1f1eb} e\u{301} a\u{200b}b\n}\n";

/// A history of so many rounds, drawn from a seed, shows the same on both displays.
fn assert_seed(rt: &impl Abort, alloc: Global, seed: u64, rounds: u32) -> Result<(), Fail> {
    let plain = played::<PlainSheet>(rt, alloc, TEXT, seed, rounds)?;
    let mapped = played::<MapSheet>(rt, alloc, TEXT, seed, rounds)?;
    assert_eq!(rt; plain.as_str(), mapped.as_str());
    Ok(())
}

/// The same of so many seeds, from one on.
fn assert_alike(
    rt: &impl Abort,
    alloc: Global,
    from: u64,
    seeds: u64,
    rounds: u32,
) -> Result<(), Fail> {
    for seed in from..from.saturating_add(seeds) {
        assert_seed(rt, alloc, seed, rounds)?;
    }
    Ok(())
}

/// Each round has up to eight changes.
#[test]
fn twenty_short_histories_show_the_same(rt: HostRuntime) -> Result<(), Fail> {
    assert_alike(&rt, rt.alloc(), 1, 20, 40)
}

#[test]
fn eight_histories_of_hundreds_of_changes_show_the_same(rt: HostRuntime) -> Result<(), Fail> {
    assert_alike(&rt, rt.alloc(), 101, 8, 100)
}

#[test]
fn eight_more_histories_of_hundreds_of_changes_show_the_same(rt: HostRuntime) -> Result<(), Fail> {
    assert_alike(&rt, rt.alloc(), 201, 8, 100)
}

#[test]
fn two_histories_of_thousands_of_changes_show_the_same(rt: HostRuntime) -> Result<(), Fail> {
    assert_alike(&rt, rt.alloc(), 301, 2, 500)
}
