//! One replacement in the place of two.
ghost use Rattle.std.specs.Prelude.{◌≡◌, Some, option_map};
ghost use Rattle.std.specs.Option.{ForSome};
ghost use Rattle.edit_patch.specs.Covering.{CoverFits, covering, with_pending};
ghost use Rattle.edit_patch.specs.Leads.{reach_of};

use cell_units::Shift;

/// The replacement that covers both, of which the second replaces what the first has left. It is the second alone where
/// there is no first.
pub fn with_pending(first: Option<Shift>, second: Shift) -> Shift
    requires { ForSome first (λ f. CoverFits (reach_of f) (reach_of second)) }
    ensures { let both = with_pending (option_map reach_of first) (Some (reach_of second)) in
        Some (reach_of result) ≡ both }
{
    match first {
        None => second,
        Some(first) => covering(first, second),
    }
}

/// The replacement that covers both, of which the second replaces what the first has left.
pub fn covering(first: Shift, second: Shift) -> Shift
    requires { CoverFits (reach_of first) (reach_of second) }
    ensures { reach_of result ≡ covering (reach_of first) (reach_of second) }
{
    let start = first.start.min(second.start);
    let replaced = first.start + first.count;
    let end = replaced.max(second.end);
    let count = second.start + second.count + (end - second.end) - start;
    Shift::new(start, end - replaced + first.end, count)
}
