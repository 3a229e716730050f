// What the lists say of clauses, as these come and go.
ghost use Rattle.std.specs.Prelude.{◌≡◌, ℕ, ◌<◌, true, List, ◌∷◌, [], length, filter, Contains, IsPermutation};
ghost use Rattle.lits.specs.Clause.{has};
ghost use Rattle.occurrence_lists.specs.Occurring.{row, times, with_rows, AreListed, IsAdded, IsRemoved, IsSame, StandsFor, Numbered};

/// Lists that stand for clauses with their ids stand for one more where it is added, and for one less where it is removed.
/// The length of a literal's list is then the number of the clauses that hold it, and its ids are theirs.
pub fn lists_stand_for_clauses()
    ensures none { StandsFor [] [] }
    ensures reserved { (rows : List (List ℕ)) (cs : List Numbered) (n : ℕ) → StandsFor rows cs → StandsFor (with_rows rows n) cs }
    ensures added { (old new : List (List ℕ)) (cs : List Numbered) (id : ℕ) (c : List ℕ) → AreListed old c → IsAdded old id c new
        → StandsFor old cs → StandsFor new ((id, c) ∷ cs) }
    ensures removed { (old new : List (List ℕ)) (cs : List Numbered) (id : ℕ) (c : List ℕ) → IsRemoved old id c new
        → StandsFor old ((id, c) ∷ cs) → StandsFor new cs }
    ensures same { (old new : List (List ℕ)) (cs : List Numbered) → IsSame old new → StandsFor old cs → StandsFor new cs }
    ensures order { (rows : List (List ℕ)) (cs ds : List Numbered) → IsPermutation cs ds → StandsFor rows cs → StandsFor rows ds }
    ensures counted { (rows : List (List ℕ)) (cs : List Numbered) (l : ℕ) → StandsFor rows cs
        → length (row rows l) ≡ length (filter (λ (c : Numbered). has c.1 l) cs) }
    ensures there { (rows : List (List ℕ)) (cs : List Numbered) (c : Numbered) (l : ℕ) → StandsFor rows cs → Contains cs c
        → has c.1 l ≡ true → 0 < times c.0 (row rows l) }
    ensures whose { (rows : List (List ℕ)) (cs : List Numbered) (id l : ℕ) → StandsFor rows cs → Contains (row rows l) id
        → (c : Numbered) × Contains cs c × (c.0 ≡ id) × (has c.1 l ≡ true) }
{}
