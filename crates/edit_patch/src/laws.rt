//! Laws above the definitions, and worked examples of them. These functions do nothing: each one's contract is the law.
ghost use Rattle.std.specs.Prelude.{◌≡◌, ◌↔◌, ℕ, ◌+◌, ◌^◌, ◌<◌, ◌≤◌, List, [], ◌∷◌, ◌++◌, Option, Some, None, length};
ghost use Rattle.edit_patch.specs.declared.edit.Edit.{Edit};
ghost use Rattle.edit_patch.specs.Came.{origin_of, carry_of, Came, CorrespondsInOrder, inverted, edit_of};
ghost use Rattle.edit_patch.specs.Patch.{IsPatch, IsComposed, AllFit};
ghost use Rattle.edit_patch.specs.Covering.{CoverLeads};
ghost use Rattle.edit_patch.specs.Fits.{Fits, replacement, HaveCommon, MeetsOld, MeetsNew};

/// What a patch says of positions is the one correspondence in order that its edits leave.
pub fn correspondence_in_order()
    ensures corresponds { (es : List Edit) → IsPatch es → CorrespondsInOrder es (origin_of es) }
    ensures one { (es : List Edit) (f g : ℕ → Option ℕ) → CorrespondsInOrder es f → CorrespondsInOrder es g → (i : ℕ) → f i ≡ g i }
{}

/// No two patches say the same of each position.
pub fn one_patch_each()
    ensures { (a b : List Edit) → IsPatch a → IsPatch b → ((i : ℕ) → origin_of a i ≡ origin_of b i) → a ≡ b }
{}

/// The inverse is the patch by which `i` came from `j` exactly where by the patch `j` came from `i`.
pub fn inverse()
    ensures normal { (a : List Edit) → IsPatch a → IsPatch (inverted a) }
    ensures back { (a : List Edit) (i j : ℕ) → IsPatch a → Came (inverted a) i j ↔ Came a j i }
    ensures twice { (a : List Edit) → inverted (inverted a) ≡ a }
{}

/// Two patches compose to one patch, and to no other.
pub fn one_composition()
    ensures exists { (a b : List Edit) → IsPatch a → IsPatch b → (c : List Edit) × IsComposed a b c }
    ensures one { (a b c d : List Edit) → IsComposed a b c → IsComposed a b d → c ≡ d }
{}

/// It does not matter which two of three patches are composed first, and the patch of no edit changes nothing. The
/// inverse of a composition is that of the second patch and then that of the first.
pub fn composition()
    ensures associative { (a b c ab bc x y : List Edit) →
        IsComposed a b ab → IsComposed ab c x → IsComposed b c bc → IsComposed a bc y → x ≡ y }
    ensures none_later { (a : List Edit) → IsPatch a → IsComposed a [] a }
    ensures none_earlier { (a : List Edit) → IsPatch a → IsComposed [] a a }
    ensures reversed { (a b c : List Edit) → IsPatch a → IsPatch b → IsComposed a b c →
        IsComposed (inverted b) (inverted a) (inverted c) }
{}

/// Patches that fit lists fit them backwards too, and compose to one that fits. Where the lengths are u32, so are the
/// positions.
pub fn fitting<T>()
    ensures none { (xs : List T) → Fits [] xs xs }
    ensures inverse { (a : List Edit) (old new : List T) → IsPatch a → Fits a old new → Fits (inverted a) new old }
    ensures composed { (a b c : List Edit) (old mid new : List T) → IsPatch a → IsPatch b → IsComposed a b c →
        Fits a old mid → Fits b mid new → Fits c old new }
    ensures small { (a : List Edit) (old new : List T) → Fits a old new → length old < 2 ^ 32 → length new < 2 ^ 32 → AllFit a }
{}

/// One replacement is a patch, and fits the list before it and the list after it.
pub fn replacing<T>()
    ensures normal { (start end count : ℕ) → start ≤ end → IsPatch (replacement start end count) }
    ensures fits { (before removed added after : List T) →
        Fits (replacement (length before) (length before + length removed) (length added))
        (before ++ removed ++ after) (before ++ added ++ after) }
{}

/// Ranges that are not backwards have a place in common where neither is after the other. What an edit meets in the old
/// text its inverse meets in the new one.
pub fn meeting()
    ensures order { (start end first last : ℕ) → start ≤ end → first ≤ last →
        HaveCommon start end first last ↔ ((start ≤ last) × (first ≤ end)) }
    ensures inverse { (a : List Edit) (first last : ℕ) → MeetsNew (inverted a) first last ↔ MeetsOld a first last }
{}

/// One replacement leads from a list to a second, and another from that to a third. Then the one that covers both leads
/// from the first to the third.
pub fn covering_laws()
    ensures { CoverLeads }
{}

/// Of the new positions of a replacement the next patch deletes all but the first, and the position after them.
pub fn delete_across_an_edge()
    ensures composed { IsComposed (edit_of 2 4 2 5 ∷ []) (edit_of 3 6 3 3 ∷ []) (edit_of 2 5 2 3 ∷ []) }
    ensures new { origin_of (edit_of 2 5 2 3 ∷ []) 2 ≡ None }
    ensures kept { origin_of (edit_of 2 5 2 3 ∷ []) 3 ≡ Some 5 }
    ensures replaced { carry_of (edit_of 2 5 2 3 ∷ []) 4 ≡ None }
    ensures carried { carry_of (edit_of 2 5 2 3 ∷ []) 5 ≡ Some 3 }
    ensures inverse { inverted (edit_of 2 5 2 3 ∷ []) ≡ edit_of 2 3 2 5 ∷ [] }
{}

/// What is inserted and deleted again leaves no edit.
pub fn insert_then_delete()
    ensures { IsComposed (edit_of 3 3 3 5 ∷ []) (edit_of 3 5 3 3 ∷ []) [] }
{}

/// Edits with no kept position between them are no patch, nor is an edit that is empty on both sides.
pub fn no_patch()
    ensures touching { ¬ IsPatch (edit_of 2 4 2 5 ∷ (edit_of 4 6 5 6 ∷ [])) }
    ensures empty { ¬ IsPatch (edit_of 3 3 3 3 ∷ []) }
{}
