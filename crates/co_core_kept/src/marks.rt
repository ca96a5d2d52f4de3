ghost use Rattle.std.specs.Prelude.{◌≡◌};
ghost use Rattle.std.specs.List.{list_all};
ghost use Rattle.std.specs.Option.{option_copied};
ghost use Rattle.co_core_tree.specs.Slots as tree;
ghost use Rattle.co_core.specs.Counts as spec;
ghost use Rattle.co_core.specs.Plans.{count_kind};
ghost use Rattle.co_core.specs.Scopes as scope;
ghost use Rattle.co_core_kept.specs.Left.{one_less, temporary_after};

use co_base::SlotId;
use co_core_acts::{Order, Visitor, visit_func};
use co_core_tree::{CoreExpr, CoreFunc, Init, SlotInfo, SlotKind, UnitParts};
use co_core_typed::slot_of;
use co_types::Head;

fn is_mark(kind: SlotKind) -> bool
    ensures { result ≡ scope.is_mark kind }
{
    match kind {
        SlotKind::Mark => true,
        _ => false,
    }
}

fn count_marks(slots: &[SlotInfo]) -> usize
    ensures { result ≡ count_kind scope.is_mark slots.now }
{
    let mut count = 0;
    for slot in slots {
        if is_mark(slot.kind) {
            count += 1;
        }
    }
    count
}

fn is_class(head: Head) -> bool
    ensures { result ≡ tree.is_class_head head }
{
    match head {
        Head::Class(_) => true,
        _ => false,
    }
}

fn holds_class(slot: Option<&SlotInfo>) -> bool
    ensures { result ≡ tree.holds_class (option_copied slot.entry) }
{
    match slot {
        Some(slot) => is_class(slot.of.head()),
        None => false,
    }
}

/// How many marks of a function are left for its temporaries, and whether there were enough of them so far.
#[derive(Drop)]
struct MarksLeft<'a> {
    func: &'a CoreFunc,
    left: usize,
    enough: bool,
}

impl MarksLeft<'_> {
    fn take_one(&mut self)
        ensures { self.new ≡ one_less self.old }
    {
        self.enough = self.enough && self.left > 0;
        self.left = self.left.saturating_sub(1);
    }

    /// A temporary of this slot has a mark where it is an object of a class and conditional.
    fn take(&mut self, slot: SlotId, conditional: bool)
        ensures { self.new ≡ temporary_after self.old slot conditional }
    {
        if conditional && holds_class(slot_of(self.func, slot)) {
            self.take_one();
        }
    }
}

impl Visitor for MarksLeft<'_> {
    ghost use Rattle.co_core_kept.specs.Left.{left_after};

    ghost after = { left_after };

    fn does(&mut self, conditional: bool, e: &CoreExpr) {
        match e {
            CoreExpr::Temp(slot, _, _) => self.take(*slot, conditional),
            _ => {}
        }
    }

    fn passes(&mut self, _e: &CoreExpr) {}

    fn starts(&mut self, _init: &Init) {}

    fn keeps_expr(&mut self, _e: &CoreExpr) {}

    fn keeps_init(&mut self, _init: &Init) {}
}

/// Whether the marks of a function are those of its temporaries.
fn func_marked(funcs: &[CoreFunc], func: &CoreFunc) -> bool
    ensures { result ≡ spec.func_marked funcs.now func.now }
{
    let mut marks = MarksLeft {
        func,
        left: count_marks(func.slots.as_slice()),
        enough: true,
    };
    visit_func(&mut marks, funcs, Order::Text, func);
    marks.enough && marks.left == 0
}

fn all_marked(funcs: &[CoreFunc]) -> bool
    ensures { result ≡ list_all (spec.func_marked funcs.now) funcs.now }
{
    let mut rest = funcs;
    while let [func, next @ ..] = rest {
        if !func_marked(funcs, func) {
            return false;
        }
        rest = next;
    }
    true
}

/// Whether each temporary of a class that is made in a conditional operand has a mark of its own [class.temporary].
pub fn marks_match(unit: &UnitParts) -> bool
    ensures { result ≡ spec.marks_match unit.now }
{
    all_marked(unit.funcs.as_slice())
}
