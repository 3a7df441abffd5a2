//! What holds of every meaning, as contracts of functions that do nothing.
ghost use Rattle.std.specs.Prelude.{List, ℕ, ◌⊎◌, ◌↔◌};
ghost use Rattle.dm_spine.specs.Past.{In, Rises, Legal, Agree, union};

use crate::parts::Parts;

/// The union of two legal pasts that agree is legal (docs/DEFINITIONS.md, "The shared history").
pub fn union_legal<P: Parts>()
    ensures rises { (xs ys : List (ℕ × P.Entry)) → Rises 0 xs → Rises 0 ys → Rises 0 (union xs ys) }
    ensures members { (xs ys : List (ℕ × P.Entry)) → Rises 0 xs → Rises 0 ys → Agree P.meaning xs ys
        → (a : ℕ × P.Entry) → In a (union xs ys) ↔ (In a xs ⊎ In a ys) }
    ensures legal { (p : P) (xs ys : List (ℕ × P.Entry)) → Rises 0 xs → Rises 0 ys → Agree P.meaning xs ys
        → Legal P.meaning p xs → Legal P.meaning p ys → Legal P.meaning p (union xs ys) }
{}
