// A law of legal lists.
ghost use Rattle.std.specs.Prelude.{◌≡◌, List, [], ◌∷◌, ◌++◌, false};
ghost use Rattle.handover_core.specs.declared.item.Item.{Item};
ghost use Rattle.handover_core.specs.Legal.{Legal, Follows, is_open};

/// A front of a legal list is legal, and so is a legal list with one item more that may follow it;
/// and the last item of a legal list may follow those before it. Behind an End nothing follows.
pub fn legal_lists()
    ensures front { (xs ys : List Item) → Legal (xs ++ ys) → Legal xs }
    ensures more { (xs : List Item) (x : Item) → Legal xs → Follows xs x → Legal (xs ++ x ∷ []) }
    ensures ended { (xs ys : List Item) → Legal (xs ++ ys) → is_open xs ≡ false → ys ≡ [] }
    ensures last { (xs : List Item) (x : Item) → Legal (xs ++ x ∷ []) → Follows xs x }
{}
