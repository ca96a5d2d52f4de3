ghost use Rattle.std.specs.Prelude.{◌≡◌, ℕ, false, true, fold, length, slice_index_or};
ghost use Rattle.co_core.specs.Plans as plans;
ghost use Rattle.co_core_params.specs.Marked.{differ, marked, marked_copy};
ghost use Rattle.co_core_tree.specs.declared.units.CoreFunc.{CoreFunc};

use co_base::SlotId;
use co_core_tree::CopyPlan;

/// The slots that have been marked, and whether each of them was marked once and is below 4,096.
#[derive(Drop)]
struct Marks {
    marked: [bool; 4096],
    once: bool,
}

impl Marks {
    fn none() -> Marks
        ensures length { length result.marked ≡ 4096 }
        ensures none { (k : ℕ) → slice_index_or result.marked k false ≡ false }
        ensures once { result.once ≡ true }
    {
        Marks {
            marked: [false; 4096],
            once: true,
        }
    }

    fn mark(&mut self, slot: SlotId)
        ensures { self.new ≡ marked self.old slot }
    {
        let at = slot.0 as usize;
        if at < 4096 {
            self.once = self.once && !self.marked[at];
            self.marked[at] = true;
        } else {
            self.once = false;
        }
    }

    fn mark_slots(&mut self, slots: &[SlotId])
        ensures { self.new ≡ fold marked self.old slots.now }
    {
        for slot in slots {
            self.mark(*slot);
        }
    }

    fn mark_copies(&mut self, copies: &[CopyPlan])
        ensures { self.new ≡ fold marked_copy self.old copies.now }
    {
        for copy in copies {
            self.mark(copy.to);
        }
    }
}

/// Whether the slots are below 4,096 and none stands twice among them. It takes no memory.
pub(crate) fn slots_differ(slots: &[SlotId]) -> bool
    ensures { result ≡ differ slots.now }
{
    let mut marks = Marks::none();
    marks.mark_slots(slots);
    marks.once
}

/// Whether the slots of the copies are below 4,096 and none stands twice among them.
pub(crate) fn copies_differ(copies: &[CopyPlan]) -> bool
    ensures { (f : CoreFunc) → result ≡ differ (plans.copies_to f copies.now) }
{
    let mut marks = Marks::none();
    marks.mark_copies(copies);
    marks.once
}
