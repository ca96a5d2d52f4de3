ghost use Rattle.std.specs.Prelude.{◌≡◌, ℕ, false, flat_map, fold, length, slice_index_or};
ghost use Rattle.co_core_scopes.specs.Makes.{slot_list};
ghost use Rattle.co_core_scopes.specs.Sets.{has, inserted, removed};
ghost use Rattle.co_core_scopes.specs.Sets as spec;

use co_base::SlotId;
use co_core_tree::CoreStmt;

/// A set of slots below 4,096.
#[derive(Drop)]
pub(crate) struct SlotSet {
    marks: [bool; 4096],
}

impl SlotSet {
    /// The set of no slots.
    pub(crate) fn none() -> SlotSet
        ensures size { length result.marks ≡ 4096 }
        ensures none { (k : ℕ) → slice_index_or result.marks k false ≡ false }
    {
        SlotSet {
            marks: [false; 4096],
        }
    }

    pub(crate) fn contains(&self, slot: SlotId) -> bool
        ensures { result ≡ has self.now slot }
    {
        let at = slot.0 as usize;
        at < 4096 && self.marks[at]
    }

    fn insert(&mut self, slot: SlotId)
        ensures { self.new ≡ inserted self.old slot }
    {
        let at = slot.0 as usize;
        if at < 4096 {
            self.marks[at] = true;
        }
    }

    fn remove(&mut self, slot: SlotId)
        ensures { self.new ≡ removed self.old slot }
    {
        let at = slot.0 as usize;
        if at < 4096 {
            self.marks[at] = false;
        }
    }

    pub(crate) fn insert_if(&mut self, slot: Option<SlotId>)
        ensures { self.new ≡ fold inserted self.old (slot_list slot) }
    {
        match slot {
            Some(slot) => self.insert(slot),
            None => {}
        }
    }

    pub(crate) fn remove_if(&mut self, slot: Option<SlotId>)
        ensures { self.new ≡ fold removed self.old (slot_list slot) }
    {
        match slot {
            Some(slot) => self.remove(slot),
            None => {}
        }
    }

    /// Removes the locals that are declared directly in a list.
    pub(crate) fn remove_locals(&mut self, stmts: &[CoreStmt])
        ensures { self.new ≡ fold removed self.old (flat_map (λ s. slot_list (spec.local_of s)) stmts.now) }
    {
        for s in stmts {
            self.remove_if(local_of(s));
        }
    }
}

/// The slot that a declaration makes.
pub(crate) fn local_of(s: &CoreStmt) -> Option<SlotId>
    ensures { result ≡ spec.local_of s.now }
{
    match s {
        CoreStmt::Local(slot, _, _) => Some(*slot),
        _ => None,
    }
}
