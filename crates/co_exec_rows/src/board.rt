ghost use Rattle.std.specs.Prelude.{◌≡◌, ◌<◌};
ghost use Rattle.co_machine.specs.Effect as effect;

use crate::change::{go_on, meet, set_a};
use crate::values::is_final;
use co_base::{Limit, Span, Undef};
use co_machine::{Control, Looked, Next, Posted, StopKind};

/// The cell that a post tries.
pub fn post_cell(k: &Control) -> u16
    ensures { result ≡ effect.post_cell k.now }
{
    k.post.wrapping_add(k.tried)
}

/// A post's cell: empty, it took the handle; else the next is tried, until all were full.
pub fn try_cell(old: u64, k: &mut Control) -> Posted
    ensures answer { result ≡ effect.post_answer old k.old }
    ensures state { k.new ≡ effect.post_cell_tried old k.old }
{
    if old == 0 {
        k.post = post_cell(k).wrapping_add(1);
        k.tried = 0;
        return Posted::Done;
    }
    if k.tried == 65535 {
        k.tried = 0;
        return Posted::Full;
    }
    k.tried += 1;
    Posted::Next
}

/// The turn of a post.
pub fn post(old: u64, k: &mut Control)
    requires { k.old.pc < 4294967295 }
    ensures { k.new ≡ effect.after_post (effect.post_answer old k.old) (effect.post_cell_tried old k.old) }
{
    match try_cell(old, k) {
        Posted::Done => go_on(k),
        Posted::Next => {}
        Posted::Full => meet(StopKind::Limit(Limit::Board), k),
    }
}

/// A look's cell: a handle in it ends the look; else the next is looked at, until all were empty.
pub fn see_cell(old: u64, k: &mut Control) -> Looked
    ensures answer { result ≡ effect.look_answer old k.old }
    ensures state { k.new ≡ effect.look_cell_seen old k.old }
{
    k.look = k.look.wrapping_add(1);
    if old != 0 {
        k.zeros = 0;
        return Looked::Found(old);
    }
    if k.zeros == 65535 {
        k.zeros = 0;
        return Looked::Empty;
    }
    k.zeros += 1;
    Looked::Next
}

/// The turn of a look's cell.
pub fn look(old: u64, k: &mut Control)
    ensures { k.new ≡ effect.after_look (effect.look_answer old k.old) (effect.look_cell_seen old k.old) }
{
    match see_cell(old, k) {
        Looked::Found(handle) => {
            k.taken = handle;
            k.next = Next::Taken;
        }
        Looked::Next => {}
        Looked::Empty => k.next = Next::LookStop,
    }
}

/// a = whether the coroutine is at its final suspend point.
pub fn tell_done(old: u64, at: Span, k: &mut Control)
    requires { k.old.pc < 4294967295 }
    ensures { k.new ≡ effect.told_done old at k.old }
{
    if old == 0 {
        meet(StopKind::Undefined(Undef::U3, at), k);
    } else if is_final(old) {
        set_a(1, k);
    } else {
        set_a(0, k);
    }
}
