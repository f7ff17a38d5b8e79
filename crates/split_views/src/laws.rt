//! What a change of one view makes of the others, and where no job is out.
ghost use Rattle.std.specs.Prelude.{◌≡◌, ◌≢◌, ◌<◌, ℕ, List, [], true, false, length, replicate};
ghost use Rattle.std.specs.List.{list_any};
ghost use Rattle.display_sheet.specs.declared.change.Change.{Change};
ghost use Rattle.display_sheet.specs.Changes.{parts_of};
ghost use Rattle.display_map.specs.Events.{Event};
ghost use Rattle.display_map.specs.Replay.{History, appended};
ghost use Rattle.split_views.specs.Views.{added, appended_in, changed, history_of, is_edit};
ghost use Rattle.split_views.specs.Wrapping.{IsIdle, is_send};

/// Laws of the views that a change reaches. It does nothing.
///
/// There are as many views after it. An edit adds the same to the history of every view. Another change adds it to that
/// of its own view, and no other view's history changes.
pub fn view_laws()
    ensures count { (histories : List History) (view number : ℕ) (change : Change) →
        length (changed histories view number change) ≡ length histories }
    ensures edit { (histories : List History) (view number other : ℕ) (change : Change) →
        is_edit (parts_of change) ≡ true → other < length histories →
        history_of (changed histories view number change) other
        ≡ appended (history_of histories other) (added number change) }
    ensures own { (histories : List History) (view number : ℕ) (change : Change) →
        view < length histories →
        history_of (changed histories view number change) view
        ≡ appended (history_of histories view) (added number change) }
    ensures others { (histories : List History) (view number other : ℕ) (change : Change) →
        is_edit (parts_of change) ≡ false → other ≢ view →
        history_of (changed histories view number change) other ≡ history_of histories other }
{}

/// Laws of views of which no job is out. It does nothing.
///
/// None is out at the start. None is out after a change, or after events of which none sends a job.
pub fn idle_laws()
    ensures opened { (text : List ℕ) (views view : ℕ) → view < views →
        IsIdle (history_of (replicate views (record { opening = text; events = [] })) view) }
    ensures changed { (histories : List History) (view number other : ℕ) (change : Change) →
        IsIdle (history_of histories other) →
        IsIdle (history_of (changed histories view number change) other) }
    ensures appended { (histories : List History) (view other : ℕ) (events : List Event) →
        list_any is_send events ≡ false → IsIdle (history_of histories other) →
        IsIdle (history_of (appended_in histories view events) other) }
{}
