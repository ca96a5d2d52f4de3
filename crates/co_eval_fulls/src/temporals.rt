ghost use Rattle.std.specs.Prelude.{◌≡◌, ◌+◌, true, Some, length, map, IfOk};
ghost use Rattle.std.specs.Option.{option_copied};
ghost use Rattle.co_eval_data.specs.Agents.{local_of};
ghost use Rattle.co_eval_data.specs.Seen.{temporal_of};
ghost use Rattle.co_eval_fulls.specs.Fulls.{unmade_here};
ghost use Rattle.co_eval_fulls.specs.FullActs.{acts_of_part};
ghost use Rattle.co_eval_fulls.specs.Unmade as spec;
ghost use Rattle.co_meaning_calls.specs.Calls as calls;
ghost use Rattle.co_meaning_data.specs.Turn as turn;

use crate::params::holds_class;
use crate::parts::{Part, visit_part};
use co_base::{NoMemory, SlotId};
use co_core_acts::Visitor;
use co_core_tree::{CoreExpr, CoreFunc, Init};
use co_eval_data::{Here, Temporal};
use co_eval_reads::func;
use sqlite_items::{Items, at};
use std::alloc::Global;

/// How many temporaries there are, as far as a number can tell.
#[derive(Drop)]
struct Count {
    count: usize,
}

impl Count {
    fn add_one(&mut self)
        ensures { self.new ≡ spec.one_more self.old }
    {
        if self.count < usize::MAX {
            self.count += 1;
        }
    }
}

impl Visitor for Count {
    ghost use Rattle.co_eval_fulls.specs.Unmade.{counted_after};

    ghost after = { counted_after };

    fn does(&mut self, _conditional: bool, e: &CoreExpr) {
        match e {
            CoreExpr::Temp(..) => self.add_one(),
            _ => {}
        }
    }

    fn passes(&mut self, _e: &CoreExpr) {}

    fn starts(&mut self, _init: &Init) {}

    fn keeps_expr(&mut self, _e: &CoreExpr) {}

    fn keeps_init(&mut self, _init: &Init) {}
}

fn is_marked(func: &CoreFunc, slot: SlotId, conditional: bool) -> bool
    ensures { result ≡ calls.has_mark (Some func.now) (record { slot = slot; conditional = conditional }) }
{
    conditional && holds_class(at(func.slots.as_slice(), slot.0 as usize))
}

/// Whether a temporary has a mark: it is an object of a class and conditional.
fn has_mark(func: Option<&CoreFunc>, slot: SlotId, conditional: bool) -> bool
    ensures { result ≡ calls.has_mark (option_copied func.entry) (record { slot = slot; conditional = conditional }) }
{
    match func {
        Some(func) => is_marked(func, slot, conditional),
        None => false,
    }
}

/// The temporaries that are written so far, the last first, at the head of a list; whether there was room for all of them.
#[derive(Drop)]
struct Unmade<'a> {
    func: Option<&'a CoreFunc>,
    written: Items<Temporal>,
    next: usize,
    fits: bool,
}

impl Unmade<'_> {
    fn write(&mut self, temporal: Temporal)
        ensures { self.new ≡ spec.written_after self.old temporal }
    {
        if self.next < self.written.len() {
            self.written.set(self.next, temporal);
            self.next += 1;
        } else {
            self.fits = false;
        }
    }

    /// A temporary of this slot is not made yet.
    fn add(&mut self, slot: SlotId, conditional: bool)
        ensures { self.new ≡ spec.temporary_after self.old slot conditional }
    {
        let marked = has_mark(self.func, slot, conditional);
        self.write(Temporal {
            slot: slot.0,
            marked,
            live: false,
            object: None,
        });
    }
}

impl Visitor for Unmade<'_> {
    ghost use Rattle.co_eval_fulls.specs.Unmade.{unmade_after};

    ghost after = { unmade_after };

    fn does(&mut self, conditional: bool, e: &CoreExpr) {
        match e {
            CoreExpr::Temp(slot, _, _) => self.add(*slot, conditional),
            _ => {}
        }
    }

    fn passes(&mut self, _e: &CoreExpr) {}

    fn starts(&mut self, _init: &Init) {}

    fn keeps_expr(&mut self, _e: &CoreExpr) {}

    fn keeps_init(&mut self, _init: &Init) {}
}

/// Room for so many temporaries.
fn room_for(alloc: Global, count: usize) -> Result<Items<Temporal>, NoMemory> {
    let mut room = Items::new(alloc);
    for _i in 0..count {
        room.push(Temporal {
            slot: 0,
            marked: false,
            live: false,
            object: None,
        })?;
    }
    Ok(room)
}

fn count_of(funcs: &[CoreFunc], part: Part<'_>) -> usize {
    let mut count = Count { count: 0 };
    visit_part(&mut count, funcs, part);
    count.count
}

/// What is written, where there was room for all and no more.
fn all_written(unmade: Unmade<'_>) -> Result<Items<Temporal>, NoMemory>
    ensures list { IfOk result (λ list. list ≡ unmade.entry.written) }
    ensures fits { IfOk result (λ list. unmade.entry.fits ≡ true) }
    ensures full { IfOk result (λ list. unmade.entry.next ≡ length unmade.entry.written) }
{
    let Unmade {
        written,
        next,
        fits,
        ..
    } = unmade;
    if fits {
        if next == written.len() {
            return Ok(written);
        }
    }
    Err(NoMemory)
}

/// The temporaries of a full-expression in a function, written into the room.
fn unmade_in(
    func: Option<&CoreFunc>,
    funcs: &[CoreFunc],
    part: Part<'_>,
    room: Items<Temporal>,
) -> Result<Items<Temporal>, NoMemory>
    ensures { IfOk result (λ list. map temporal_of list ≡ spec.unmade_of (option_copied func.entry) (acts_of_part funcs.now part.entry)) }
{
    let mut unmade = Unmade {
        func,
        written: room,
        next: 0,
        fits: true,
    };
    visit_part(&mut unmade, funcs, part);
    match all_written(unmade) {
        Ok(written) => Ok(written),
        Err(_) => Err(NoMemory),
    }
}

/// The temporaries of a full-expression in the function of the agent: none is made, and the last stands first.
#[tactic(auto, unfolding(co_eval_data::specs::Agents::local_of))]
pub(crate) fn unmade_temporaries(
    here: &Here<'_, '_>,
    part: Part<'_>,
) -> Result<Items<Temporal>, NoMemory>
    ensures { IfOk result (λ list. map temporal_of list ≡ unmade_here (acts_of_part (turn.funcs (local_of here.now)) part.entry) (local_of here.now)) }
{
    let funcs = here.program.unit.funcs.as_slice();
    let room = room_for(here.alloc, count_of(funcs, part))?;
    unmade_in(func(here), funcs, part, room)
}

fn one_more(count: u32) -> Result<u32, NoMemory>
    ensures { IfOk result (λ n. n ≡ count + 1) }
{
    match count.checked_add(1) {
        Some(more) => Ok(more),
        None => Err(NoMemory),
    }
}

/// How many of the temporaries have a mark.
#[tactic(auto, using(crate::proofs::Marks::marked_on, crate::proofs::Marks::unmarked_on, crate::proofs::Marks::no_marks))]
pub(crate) fn mark_count(temporaries: &[Temporal]) -> Result<u32, NoMemory>
    ensures { IfOk result (λ n. n ≡ calls.mark_count (map temporal_of temporaries.now)) }
{
    let mut count = 0;
    let mut rest = temporaries;
    while let [temporary, next @ ..] = rest {
        if temporary.marked {
            count = one_more(count)?;
        }
        rest = next;
    }
    Ok(count)
}
