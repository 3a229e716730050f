// Laws of elimination blocks.
ghost use Rattle.std.specs.Prelude.{◌≡◌, ◌-◌, ◌+◌, ◌≤◌, ℕ, true, false, ◌++◌, ◌∷◌, [], List, Contains, IsTrue, ◌↔◌, filter_map, length, take};
ghost use Rattle.session_rules.specs.Logic.{same_set, Forced};
ghost use Rattle.session_rules.specs.History.{assumed};
ghost use Rattle.session_rules.specs.Own.{added_clause, removed_clause, copies, active_copies, active_clauses, events_of};
ghost use Rattle.session_rules.specs.declared.Step.{Step};
ghost use Rattle.restore.specs.declared.lists.Elim.{Elim};
ghost use Rattle.restore.specs.Resolution.{has_variable, Entails};
ghost use Rattle.restore.specs.Stack.{stacked, KeepsResolvents, IsEntryOf, behind_elimination};
ghost use Rattle.elimination_laws.specs.Eligible.{how_many, OftenAs, Covered};
ghost use Rattle.elimination_laws.specs.Parts.{in_part, to_last_weakening, lemma_clause};
ghost use Rattle.elimination_laws.specs.Irredundant.{irredundant, Balanced};
ghost use Rattle.elimination_laws.specs.Blocks.{have_turns, is_block_of, IsBlock, is_block, Blocks};
ghost use Rattle.elimination_laws.specs.Told.{irredundant_told, are_told_blocks, ArePushed, ToldBlocks};

/// The test of a block agrees with its points.
pub fn blocks_are_tested()
    ensures { (x : ℕ) (irr active after : List (List ℕ)) (frozen : List ℕ) (run : List Step)
        → IsTrue (is_block_of x irr active after frozen run) ↔ IsBlock x irr active after frozen run }
{}

/// A block is one also by other lists with as many irredundant clauses of each set, and the same sets of active clauses.
pub fn blocks_depend_on_sets()
    ensures { (x : ℕ) (irr jrr active bctive after bfter : List (List ℕ)) (frozen : List ℕ)
        (run : List Step) → OftenAs irr jrr → Covered active bctive → Covered bctive active
        → Covered after bfter → Covered bfter after
        → is_block_of x irr active after frozen run ≡ is_block_of x jrr bctive bfter frozen run }
{}

/// A stack with the entry of a block's variable is kept by the clauses behind the block.
pub fn blocks_keep_resolvents()
    ensures { (x : ℕ) (irr active after : List (List ℕ)) (frozen : List ℕ) (run : List Step)
        → IsTrue (is_block_of x irr active after frozen run) → (es : List Elim) (e : Elim)
        → e.var ≡ x → IsEntryOf e irr → KeepsResolvents es irr
        → KeepsResolvents (es ++ e ∷ []) (behind_elimination x irr (filter_map lemma_clause run)) }
{}

/// These are the clauses that are counted behind the block, so those keep the stack too, and what was implied stays implied.
pub fn counted_clauses_keep()
    ensures counted { (x : ℕ) (irr active after : List (List ℕ)) (frozen : List ℕ) (run : List Step)
        → IsTrue (is_block_of x irr active after frozen run)
        → OftenAs (behind_elimination x irr (filter_map lemma_clause run)) (irredundant_told irr run) }
    ensures kept { (x : ℕ) (irr active after : List (List ℕ)) (frozen : List ℕ) (run : List Step)
        → IsTrue (is_block_of x irr active after frozen run) → (es : List Elim) (e : Elim)
        → e.var ≡ x → IsEntryOf e irr → KeepsResolvents es irr
        → KeepsResolvents (es ++ e ∷ []) (irredundant_told irr run) }
    ensures implied { (x : ℕ) (irr active after : List (List ℕ)) (frozen : List ℕ) (run : List Step)
        → IsTrue (is_block_of x irr active after frozen run) → (es : List Elim) (e : Elim)
        → e.var ≡ x → IsEntryOf e irr → (c : List ℕ) → Entails (stacked es ++ irr) c
        → Entails (stacked (es ++ e ∷ []) ++ irredundant_told irr run) c }
{}

/// So the clauses behind a list of blocks keep the stack with the entries that were pushed at the blocks, and imply with it what
/// was implied.
pub fn lists_of_blocks_keep_resolvents()
    ensures kept { (irr active : List (List ℕ)) (frozen : List ℕ) (run : List Step)
        (ms : List (ℕ × ℕ)) → IsTrue (are_told_blocks irr active frozen run 0 ms (length run))
        → (es fs : List Elim) → ArePushed irr run 0 ms fs → (jrr : List (List ℕ))
        → OftenAs jrr (irredundant_told irr run) → KeepsResolvents es irr
        → KeepsResolvents (es ++ fs) jrr }
    ensures implied { (irr active : List (List ℕ)) (frozen : List ℕ) (run : List Step)
        (ms : List (ℕ × ℕ)) → IsTrue (are_told_blocks irr active frozen run 0 ms (length run))
        → (es fs : List Elim) → ArePushed irr run 0 ms fs → (jrr : List (List ℕ))
        → OftenAs jrr (irredundant_told irr run) → (c : List ℕ) → Entails (stacked es ++ irr) c
        → Entails (stacked (es ++ fs) ++ jrr) c }
{}

/// What is forced before a block is forced after it, where the clauses without its variable stay; and so it is in a proof.
pub fn blocks_keep_forced()
    ensures by_clauses { (x : ℕ) (irr active after : List (List ℕ)) (frozen : List ℕ)
        (run : List Step) → IsTrue (is_block_of x irr active after frozen run)
        → ((c : List ℕ) → Contains active c → has_variable x c ≡ false → Contains after c) → (l : ℕ)
        → Forced active l → Forced after l }
    ensures in_a_proof { (ps : List Step) (x b e : ℕ) → IsTrue (is_block ps x b e) → (l : ℕ)
        → Forced (active_clauses (take b ps)) l → Forced (active_clauses (take e ps)) l }
{}

/// What a board tells as blocks has only lemmas, deletions and weakenings, and ends with a weakening unless it is empty.
pub fn told_blocks_end_with_a_weakening()
    ensures turns { (irr active : List (List ℕ)) (frozen : List ℕ) (run : List Step)
        → ToldBlocks irr active frozen run → IsTrue (have_turns run) }
    ensures end { (irr active : List (List ℕ)) (frozen : List ℕ) (run : List Step)
        → ToldBlocks irr active frozen run → to_last_weakening run ≡ length run }
{}

/// The blocks that a board tells are blocks of the proof that its steps are written to, and this stays balanced.
pub fn told_blocks_are_blocks()
    ensures blocks { (irr active : List (List ℕ)) (ps run rest : List Step) → IsTrue (in_part ps)
        → Balanced (ps ++ (run ++ rest)) (length ps)
        → ((c : List ℕ) → copies removed_clause ps c ≤ copies added_clause ps c)
        → OftenAs irr (irredundant (ps ++ (run ++ rest)) (length ps))
        → ((c : List ℕ) → how_many (same_set c) active ≡ active_copies ps c)
        → ToldBlocks irr active (assumed (events_of ps)) run
        → Blocks (ps ++ (run ++ rest)) (length ps + 0) (length ps + length run) }
    ensures balanced { (irr active : List (List ℕ)) (frozen : List ℕ) (ps run rest : List Step)
        → IsTrue (in_part ps) → Balanced (ps ++ (run ++ rest)) (length ps)
        → OftenAs irr (irredundant (ps ++ (run ++ rest)) (length ps))
        → ToldBlocks irr active frozen run
        → Balanced (ps ++ (run ++ rest)) (length ps + length run) }
{}
