// Memory that goes from the lists of one line to those of the next.
ghost use Rattle.std.specs.Prelude.{◌≡◌, [], None};

use lits::Lits;
use session_rules::Ids;
use std::alloc::{AllocError, Global};

// How many literals, and how many ids, a new list has room for: those of an ordinary line, so that its list needn't grow.
const LITERALS: usize = 14;

const IDS: usize = 15;

/// Lists that nobody needs any more, in whose memory those of a later line are read. Without one a list takes memory of its
/// own.
#[derive(Drop)]
pub struct Spare {
    pub alloc: Global,
    pub lits: Option<Lits>,
    pub ids: Option<Ids>,
}

impl Spare {
    /// No list.
    pub fn new(alloc: Global) -> Spare
        ensures lits { result.lits ≡ None }
        ensures ids { result.ids ≡ None }
    {
        Spare {
            alloc,
            lits: None,
            ids: None,
        }
    }
}

// A list without a literal, in the memory that is spare, or with room for some where there is memory.
pub(crate) fn empty_literals(spare: &mut Spare) -> Lits
    ensures { result ≡ [] }
{
    if let Some(lits) = spare.lits.take() {
        let mut items = lits.into_vec();
        items.clear();
        return Lits::from_vec(items);
    }
    match Vec::with_capacity(spare.alloc, LITERALS) {
        Ok(items) => Lits::from_vec(items),
        Err(AllocError) => Lits::new(spare.alloc),
    }
}

// A list without an id, in the memory that is spare, or with room for some where there is memory.
pub(crate) fn empty_ids(spare: &mut Spare) -> Ids
    ensures { result ≡ [] }
{
    if let Some(ids) = spare.ids.take() {
        let mut numbers = ids.into_vec();
        numbers.clear();
        return Ids::from_vec(numbers);
    }
    match Vec::with_capacity(spare.alloc, IDS) {
        Ok(items) => Ids::from_vec(items),
        Err(AllocError) => Ids::new(spare.alloc),
    }
}
