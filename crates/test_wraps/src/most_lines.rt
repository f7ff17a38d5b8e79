//! So many lines that there is hardly room for their rows.
ghost use Rattle.std.specs.Prelude.{◌≡◌, ◌+◌, ◌≤◌, ◌^◌, ◌∷◌, [], IfOk};
ghost use Rattle.cell_line.specs.Lines.{FitsU32};
ghost use Rattle.cell_line.specs.Worked.{wide};
ghost use Rattle.wrapped_lines.specs.WrappedSource.{HaveRoom};

use crate::script::landed;
use cell_line::{Element, Lines};
use cell_units::{NoMemory, Rows, Steps, Text};
use edit_patch::Patch;
use std::alloc::Global;
use std::test::Fail;
use test_stages::wraps;
use test_support::told::number;
use wrap_map::WrapMap;

/// A line of three letters of two cells each, and so many empty lines after it.
#[derive(Drop)]
struct MostlyEmpty {
    empty: u32,
    ghost few: { empty + 5 ≤ 2 ^ 32 },
}

impl Lines for MostlyEmpty {
    ghost use Rattle.std.specs.Prelude.{◌∷◌, [], replicate};
    ghost use Rattle.cell_line.specs.Worked.{wide};

    ghost elements_by_line = { λ s. replicate 3 (wide (230 ∷ 188 ∷ 162 ∷ [])) ∷ replicate s.empty [] };

    fn lines(&self) -> u32 {
        self.empty + 1
    }

    #[tactic(auto, using(crate::proofs::MostLines::first_line, crate::proofs::MostLines::empty_line))]
    fn elements(&self, alloc: Global, line: u32) -> Result<Vec<Element>, NoMemory> {
        let mut elements = Vec::new(alloc);
        if line > 0 {
            return Ok(elements);
        }
        elements.push(wide_letter(alloc)?)?;
        elements.push(wide_letter(alloc)?)?;
        elements.push(wide_letter(alloc)?)?;
        Ok(elements)
    }

    fn share(&self) -> Result<MostlyEmpty, NoMemory> {
        Ok(MostlyEmpty { empty: self.empty })
    }
}

/// A letter of two cells.
fn wide_letter(alloc: Global) -> Result<Element, NoMemory>
    ensures { IfOk result (λ letter. letter ≡ wide (230 ∷ 188 ∷ 162 ∷ [])) }
{
    Ok(Element {
        text: Text::from_str(alloc, "漢")?,
        cells: 2,
        tab: false,
    })
}

impl MostlyEmpty {
    fn new(empty: u32) -> MostlyEmpty
        requires { empty + 5 ≤ 2 ^ 32 }
    {
        MostlyEmpty { empty }
    }
}

/// Wraps the first lines that wait at two cells, and lands the same run once more. It says which rows each landing
/// replaced, and by which.
fn landed_twice<N: Lines>(
    alloc: Global,
    map: &mut WrapMap<N>,
    lines: &N,
) -> Result<String, NoMemory>
    requires lines { map.old.standing.lines ≡ N.elements_by_line lines.now }
    requires fits { FitsU32 (N.elements_by_line lines.now) }
    requires room { HaveRoom (N.elements_by_line lines.now) }
    requires width { map.old.width ≡ 2 }
{
    let mut steps = Steps::new();
    let Some(run) = map.next_run(&[], &mut steps) else {
        return number(alloc, None);
    };
    let wraps = wraps(alloc, lines, run, 2)?;
    let since = Patch::none(alloc);
    let first = map.land(alloc, lines, &since, run, 2, wraps.as_slice(), &mut steps)?;
    let second = map.land(alloc, lines, &since, run, 2, wraps.as_slice(), &mut steps)?;
    let mut told = landed(alloc, &first)?;
    told.push_str("; ")?;
    let again = landed(alloc, &second)?;
    told.push_str(again.as_str())?;
    Ok(told)
}

/// Where rows that are added for a moment might have no room, a landing takes rows off first. It gives the same rows
/// then: the 130 of 128 lines, of which one has three.
#[test]
fn a_landing_with_hardly_any_room_answers_its_rows(rt: HostRuntime) -> Result<(), Fail> {
    let mut steps = Steps::new();
    let lines = MostlyEmpty::new(4_294_967_291);
    let mut map = WrapMap::new(rt.alloc(), lines.share()?, 2, &mut steps)?;
    let told = landed_twice(rt.alloc(), &mut map, &lines)?;
    assert_eq!(rt; told.as_str(), "0..128 to 0..130; 0..130 to 0..130");
    let shown = map.snapshot()?;
    // 4,294,967,292 lines, and two rows more.
    assert_eq!(rt; shown.line_at(4_294_967_293), Some((4_294_967_291, 0)));
    assert_eq!(rt; shown.line_at(4_294_967_294), None);
    assert_eq!(rt; shown.line_at(2), Some((0, 2)));
    Ok(())
}
