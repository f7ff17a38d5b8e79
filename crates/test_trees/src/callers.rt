//! The callers that the pages of the crates show.
ghost use Rattle.std.specs.Prelude.{◌≡◌, [], ◌∷◌, codes, map, IfOk};
ghost use Rattle.cell_units.specs.Text.{clean};
ghost use Rattle.cell_line.specs.Lines.{FitsU32};
ghost use Rattle.splice_tree.specs.Bytes.{bytes_of};
ghost use Rattle.splice_tree.specs.Splices.{measured};
ghost use Rattle.tab_map.specs.TabLines.{lines_at};

use crate::marks::mark;
use crate::nodes::{leaf, weights};
use crate::patches::{edit, one};
use crate::rope_looks::shows;
use crate::weights::Weight;
use cell_line::Lines;
use cell_units::{Bias, Layer, NoMemory, Shift, Steps};
use edit_patch::{covering, with_pending};
use mark_tree::MarkTree;
use splice_tree::{ByBytes, Bytes, NoLoad, Splice, SpliceTree};
use std::alloc::Global;
use std::test::Fail;
use sum_core::Entries;
use sum_tree::SumTree;
use tab_map::{TabMap, TabSnapshot};
use text_rope::Rope;

/// Two positions become three, of which the last two are deleted with the one after them.
#[test]
fn composes_across_an_edge(rt: HostRuntime) -> Result<(), Fail> {
    let replaces = one(rt.alloc(), edit(2, 4, 2, 5))?;
    let deletes = one(rt.alloc(), edit(3, 6, 3, 3))?;
    let both = replaces.compose(rt.alloc(), &deletes)?;
    assert_eq!(rt; both.edits(), [edit(2, 5, 2, 3)].as_slice());
    let back = both.invert(rt.alloc())?;
    assert_eq!(rt; back.edits(), [edit(2, 3, 2, 5)].as_slice());
    Ok(())
}

/// Three bytes at 4 and then one at 2: what was from 2 to 4 has become six bytes.
#[test]
fn covers_what_either_replaced(rt: HostRuntime) -> Result<(), Fail> {
    let inlay = Shift::new(4, 4, 3);
    let letter = Shift::new(2, 2, 1);
    assert_eq!(rt; covering(inlay, letter), Shift::new(2, 4, 6));
    assert_eq!(rt; with_pending(Some(inlay), letter), Shift::new(2, 4, 6));
    assert_eq!(rt; with_pending(None, letter), letter);
    Ok(())
}

/// Of two holders of [5, 3] one is altered to [5, 4], and the other still has [5, 3].
#[test]
fn node_alter_leaves_the_other_holder(rt: HostRuntime) -> Result<(), Fail> {
    let alloc = rt.alloc();
    let mut steps = Steps::new();
    let mut altered = leaf(alloc, 5, 3, &mut steps)?;
    let other = altered.share()?;
    match altered.alter(alloc, &mut steps)? {
        Entries::Leaf(items) if items.len() == 2 => items[1] = Weight(4),
        _ => assert!(rt; false, "a leaf of two was made"),
    }
    assert_eq!(rt;
        weights(&altered, alloc, &mut steps)?.as_slice(),
        [5, 4].as_slice()
    );
    assert_eq!(rt;
        weights(&other, alloc, &mut steps)?.as_slice(),
        [5, 3].as_slice()
    );
    Ok(())
}

/// [5, 9, 9, 4] where a copy that was shared before is still [5, 3, 4]. After 14 comes the second 9.
#[test]
fn a_place_is_found_by_sums(rt: HostRuntime) -> Result<(), Fail> {
    let alloc = rt.alloc();
    let mut steps = Steps::new();
    let items = Vec::from_array(alloc, [Weight(5), Weight(3), Weight(4)])?;
    let mut tree = SumTree::from_vec(alloc, items, &mut steps)?;
    let copy = tree.share()?;
    let nines = Vec::from_array(alloc, [Weight(9), Weight(9)])?;
    tree.replace(alloc, 1, 2, nines, &mut steps)?;
    let mut cursor = tree.cursor::<u64>();
    cursor.seek(14, Bias::Right, &mut steps);
    assert_eq!(rt; (cursor.start(), cursor.item().map(|w| w.0)), (14, Some(9)));
    cursor.next(&mut steps);
    assert_eq!(rt; (cursor.start(), cursor.item().map(|w| w.0)), (23, Some(4)));
    assert_eq!(rt; (tree.sum().total, copy.sum().total), (27, 12));
    Ok(())
}

/// A shared text is equal, and neither sees the other's later changes.
#[test]
fn shares_a_text(rt: HostRuntime) -> Result<(), Fail> {
    let alloc = rt.alloc();
    let mut steps = Steps::new();
    let mut rope = Rope::from_bytes(alloc, b"abc\r\nd", &mut steps)?;
    let mut copy = rope.share()?;
    assert!(rt; shows(alloc, &copy, 0, 5, "abc\nd", &mut steps)?);
    rope.replace(alloc, 0, 3, "x", &mut steps)?;
    copy.replace(alloc, 4, 5, "y", &mut steps)?;
    assert!(rt; shows(alloc, &rope, 0, 3, "x\nd", &mut steps)?);
    assert!(rt; shows(alloc, &copy, 0, 5, "abc\ny", &mut steps)?);
    Ok(())
}

/// Of two marks at 3 the Right one goes after two bytes that are put there. A copy that was shared before has it at 3.
#[test]
fn an_insertion_takes_a_right_mark_along(rt: HostRuntime) -> Result<(), Fail> {
    let alloc = rt.alloc();
    let mut steps = Steps::new();
    let mut tree = MarkTree::new(alloc);
    tree.insert(alloc, mark(alloc, 3, Bias::Right, 2)?, &mut steps)?;
    let place = tree.insert(alloc, mark(alloc, 3, Bias::Left, 1)?, &mut steps)?;
    let copy = tree.share()?;
    let insertion = Shift {
        start: 3,
        end: 3,
        count: 2,
    };
    tree.apply(alloc, insertion, &mut steps)?;
    let moved = tree.get(1, &mut steps).ok_or("no mark")?;
    let before = copy.get(1, &mut steps).ok_or("no mark")?;
    assert_eq!(rt; (place, moved.0, before.0), (0, 5, 3));
    Ok(())
}

/// A list of one splice: after two bytes that are kept three others are laid in.
fn laid_in(alloc: Global, steps: &mut Steps) -> Result<SpliceTree<Bytes, NoLoad>, NoMemory>
    ensures { IfOk result (λ tree. map (measured bytes_of) tree ≡ record { gap = 2; old = 0; new = 3 } ∷ []) }
{
    let (gap, none, three) = (Bytes { bytes: 2 }, Bytes { bytes: 0 }, Bytes { bytes: 3 });
    let splice = Splice::new(gap, none, three, NoLoad);
    SpliceTree::from_vec(alloc, vec![in alloc; splice]?, steps)
}

/// Place 2 is before the three bytes (Left) or after them (Right), and a place inside them leads back to it.
#[test]
fn a_place_is_carried_past_what_is_laid_in(rt: HostRuntime) -> Result<(), Fail> {
    let mut steps = Steps::new();
    let tree = laid_in(rt.alloc(), &mut steps)?;
    assert_eq!(rt; tree.to_upper::<ByBytes>(2, Bias::Left, &mut steps), 2);
    assert_eq!(rt; tree.to_upper::<ByBytes>(2, Bias::Right, &mut steps), 5);
    assert_eq!(rt; tree.to_upper::<ByBytes>(7, Bias::Left, &mut steps), 10);
    assert_eq!(rt; tree.to_lower::<ByBytes>(4, Bias::Right, &mut steps), 2);
    Ok(())
}

/// The lines of a layer at a tab size of 8 in place of the one before, and which of them are new.
fn retabbed<L: Layer>(
    alloc: Global,
    map: &mut TabMap<L>,
    layer: L,
) -> Result<(TabSnapshot<L>, Option<Shift>), Fail>
    requires same { map.old.source ≡ L.source layer }
    requires fits { FitsU32 (lines_at (L.source layer) 8) }
    ensures { IfOk result (λ made. made.0 ≡ lines_at (L.source layer) 8) }
{
    map.set_tab(8)?;
    Ok(map.sync(alloc, layer, None)?)
}

/// A rope of two lines, of which the second begins with a tab.
fn tabbed(alloc: Global) -> Result<Rope, Fail>
    ensures { IfOk result (λ rope. rope ≡ clean (codes "a\n\tb")) }
{
    Ok(Rope::from_bytes(alloc, b"a\n\tb", &mut Steps::new())?)
}

/// Where the tab size is set, all lines are new, and a tab at the start of a line has as many cells.
#[test]
fn a_tab_size_makes_all_lines_anew(rt: HostRuntime) -> Result<(), Fail> {
    let alloc = rt.alloc();
    let rope = tabbed(alloc)?;
    let mut map = TabMap::new(rope.share()?, 4);
    let (lines, replaced) = retabbed(alloc, &mut map, rope)?;
    assert_eq!(rt;
        replaced.map(|s| (s.start, s.end, s.count)),
        Some((0, 2, 2))
    );
    assert!(rt; lines.lines() == 2);
    let second = lines.elements(alloc, 1)?;
    assert_eq!(rt; second.first().map(|tab| tab.cells), Some(8));
    Ok(())
}
