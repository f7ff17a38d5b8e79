//! What holds of jobs that are out, and of the records that a journal leads to.
ghost use Rattle.std.specs.Prelude.{◌≡◌, ◌≤◌, ℕ, List, [], ◌∷◌, ◌++◌, None, false, codes, length, map, take};
ghost use Rattle.std.specs.List.{range_with_len};
ghost use Rattle.cell_units.specs.Record.{Record};
ghost use Rattle.cell_units.specs.Operation.{Operation, Replace};
ghost use Rattle.cell_units.specs.Text.{IsText};
ghost use Rattle.cell_units.specs.Lawful.{IsAllowed, IsLawful};
ghost use Rattle.cell_line.specs.declared.element.Element.{Element};
ghost use Rattle.wrap_workers.specs.Jobs.{JobParts};
ghost use Rattle.display_map.specs.Events.{Event, Did};
ghost use Rattle.display_sheet.specs.Changes.{ChangeParts, operation_refusal, operations_in, refusal_of};
ghost use Rattle.display_map.specs.Replay.{History, State, appended, begun, replayed, state_of};
ghost use Rattle.display_map.specs.Identity.{HaveSameLines, stamps_in};
ghost use Rattle.display_map.specs.LinePatches.{CameByStamp, IsPatchOver};
ghost use Rattle.display_map.specs.LawfulStates.{ChangeInsertsUtf8, EventsFit, InsertsUtf8};
ghost use Rattle.display_map.specs.Sending.{GivesCuts, IsOutstanding, IsSent, is_landing};
ghost use Rattle.edit_patch.specs.declared.edit.Edit.{Edit};
ghost use Rattle.edit_patch.specs.Came.{edit_of};

/// Laws of jobs. Call it where a job is to land; it does nothing.
///
/// A job is out once it was sent, and stays out over each event that isn't its landing, so over all operations of a
/// change.
pub fn job_laws()
    ensures sent { (before after : History) (job : JobParts (List (List Element))) →
        IsSent before after job → IsOutstanding after job }
    ensures stays { (h : History) (e : Event) (job : JobParts (List (List Element))) →
        is_landing job.number e ≡ false → IsOutstanding h job →
        IsOutstanding (appended h (e ∷ [])) job }
    ensures over_operations { (h : History) (ops : List Operation) →
        (job : JobParts (List (List Element))) →
        IsOutstanding h job → IsOutstanding (appended h (map Did ops)) job }
{}

/// Laws of stamps. It does nothing.
///
/// In the records of two prefixes of one journal of allowed operations, lines of one stamp have equal elements. So the
/// cuts of a run are those of the present lines that have its stamps, whatever was done since it was sent.
pub fn stamp_laws()
    ensures { (text : List ℕ) (events : List Event) (m n : ℕ) →
        IsText text → EventsFit (begun text) events →
        HaveSameLines (replayed (begun text) (take m events)).present (replayed (begun text) (take n events)).present }
{}

/// Which operations are allowed, and what records they lead to. It does nothing.
///
/// Each record that a journal of allowed operations leads to is lawful. An operation that isn't refused is allowed, and
/// so are the operations of a change that isn't, each in the record that it finds.
pub fn replay_laws()
    ensures lawful { (text : List ℕ) (events : List Event) →
        IsText text → EventsFit (begun text) events →
        IsLawful (replayed (begun text) events).present }
    ensures allowed { (r : Record) (operation : Operation) →
        IsText r.text → InsertsUtf8 operation → operation_refusal r operation ≡ None →
        IsAllowed operation r }
    ensures accepted { (s : State) (change : ChangeParts) →
        IsText s.present.text → ChangeInsertsUtf8 change → refusal_of s.present change ≡ None →
        EventsFit s (map Did (operations_in change)) }
{}

/// The line patches between the records of one journal. It does nothing.
///
/// The line patch of an operation leads from the display lines before it to those after it. An untouched line came from
/// the untouched line that it was, and a touched line is new. From one record of a journal of allowed operations to
/// each later one there is a composition of them. By it a line came from another exactly where both have one stamp.
pub fn line_patch_laws()
    ensures exists { (text : List ℕ) (before after : List Event) → IsText text →
        EventsFit (begun text) (before ++ after) →
        (patch : List Edit) × IsPatchOver (replayed (begun text) before) after patch }
    ensures came { (text : List ℕ) (before after : List Event) (patch : List Edit) → IsText text →
        EventsFit (begun text) (before ++ after) →
        IsPatchOver (replayed (begun text) before) after patch →
        let earlier = (replayed (begun text) before).present in
        CameByStamp patch earlier (replayed (begun text) (before ++ after)).present }
{}

/// Histories of which the stamps and the line patch are known. It does nothing.
///
/// A line that is changed and changed back is new, though its text is what it was. Where a line is made into two and
/// then the line above it is taken away, only the line below came from the opening text.
pub fn worked_line_patches()
    ensures changed_back { let s = begun (codes "a\nb") in
        let events = Did (Replace 2 3 (codes "x")) ∷ Did (Replace 2 3 (codes "b")) ∷ [] in
        IsPatchOver s events (edit_of 1 2 1 2 ∷ [])
        × (stamps_in (replayed s events).present ≡ 0 ∷ 3 ∷ []) }
    ensures line_above_taken_away { let s = begun (codes "a\nb\nc") in
        let events = Did (Replace 2 3 (codes "x\ny")) ∷ Did (Replace 0 2 []) ∷ [] in
        IsPatchOver s events (edit_of 0 2 0 2 ∷ [])
        × (stamps_in (replayed s events).present ≡ 5 ∷ 4 ∷ 2 ∷ []) }
{}

/// The landing of a job that is out, whatever was done since it was sent. The job's cuts are those of exactly the
/// present lines that the landing marks. It does nothing.
pub fn landing_laws()
    ensures { (h : History) (job : JobParts (List (List Element))) → IsText h.opening →
        EventsFit (begun h.opening) h.events →
        map (λ job. job.number) (state_of h).jobs ≡ range_with_len 1 (length (state_of h).jobs) →
        IsOutstanding h job → GivesCuts (state_of h) job }
{}
