ghost use Rattle.std.specs.Prelude.{◌≡◌, ◌<◌, length};
ghost use Rattle.co_machine.specs.Effect as effect;
ghost use Rattle.co_machine.specs.Rows as rows;

use co_base::Print;
use co_machine::{Control, Next, Registers, StopKind};

/// The worker meets a stop: next it draws the stamp.
pub fn meet(kind: StopKind, k: &mut Control)
    ensures { k.new ≡ rows.met kind k.old }
{
    k.next = Next::Stamp(kind);
}

/// To the next instruction.
pub fn go_on(k: &mut Control)
    requires { k.old.pc < 4294967295 }
    ensures { k.new ≡ effect.onward k.old }
{
    k.pc += 1;
}

pub fn set_a(n: u64, k: &mut Control)
    requires { k.old.pc < 4294967295 }
    ensures { k.new ≡ effect.set_a n k.old }
{
    k.registers.a = n;
    k.pc += 1;
}

pub fn set_registers(r: Registers, k: &mut Control)
    requires { k.old.pc < 4294967295 }
    ensures { k.new ≡ effect.set_registers r k.old }
{
    k.registers = r;
    k.pc += 1;
}

pub fn jump(place: u32, k: &mut Control)
    ensures { k.new ≡ effect.jumped place k.old }
{
    k.pc = place;
}

/// A print with its stamp joins the list.
pub fn print(stamp: u64, what: Print, k: &mut Control)
    requires place { k.old.pc < 4294967295 }
    requires room { length k.old.prints < 65536 }
    ensures { k.new ≡ effect.printed stamp what k.old }
{
    k.prints.push(stamp, what);
    k.pc += 1;
}

/// A block whose size word is the next to be stored.
pub fn set_block(size: u64, before: u64, k: &mut Control)
    requires { k.old.pc < 4294967295 }
    ensures { k.new ≡ effect.set_block size before k.old }
{
    k.registers.a = size;
    k.registers.b = before;
    k.pc += 1;
}
