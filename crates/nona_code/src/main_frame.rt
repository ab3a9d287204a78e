//! A frame for main code.

ghost use Rattle.std.specs.Prelude.{◌≡◌, ◌<◌, ◌≤◌, ◌^◌, length, IfOk};
ghost use Rattle.nona_code.specs.Machine.{open_at, leave};
ghost use Rattle.nona_code.specs.MainLeft.{IsLeft, BeginsMain};

use crate::instr::Instr;
use crate::main_statements::{MainFrame, Stop};
use crate::opens::count_open;
use crate::registers::Registers;
use crate::run::{Stopped, run_from};
use crate::sound::Sound;
use nona_store::Store;
use std::alloc::{AllocError, Global};

/// Runs main code, from one region to the next.
///
/// Its hidden scalars and its counters of turns stay as they are from one region to the next. It takes memory once, as it
/// begins, and from then on only through the store. An instruction takes constant time; where a region, a trap or the end of
/// turns leaves blocks, the code is read once more.
#[derive(Drop)]
pub struct CodeFrame<'a> {
    code: &'a Sound,
    registers: Registers,
    /// The instruction that is next.
    pc: usize,
}

/// Leaves the blocks around the instruction at `pc`: the scalars that were declared in them go.
fn leave_around(code: &[Instr], pc: usize, store: &mut Store)
    requires small { length code.now < 2 ^ 31 }
    requires here { pc ≤ length code.now }
    requires open { open_at code.now pc ≤ length store.old.scalars }
    ensures { store.new ≡ leave (open_at code.now pc) store.old }
{
    store.cut_scalars(count_open(code, pc));
}

impl<'a> CodeFrame<'a> {
    /// A frame before the first instruction of main code. It is refused for want of memory alone.
    pub fn begin(alloc: Global, code: &'a Sound) -> Result<CodeFrame<'a>, AllocError>
        ensures { IfOk result (λ frame. BeginsMain code.now frame) }
    {
        let registers = Registers::begin(alloc, code.deepest() as usize)?;
        Ok(CodeFrame {
            code,
            registers,
            pc: 0,
        })
    }
}

impl<'a> MainFrame for CodeFrame<'a> {
    ghost left = { IsLeft };

    fn next(&mut self, turns: u64, store: &mut Store) -> Result<Stop, AllocError> {
        let code = self.code.instrs();
        match run_from(&mut self.registers, code, self.pc, store, turns) {
            Stopped::Ended(end) => Ok(Stop::Ended(end)),
            Stopped::Region {
                number,
                low,
                high,
                next,
            } => {
                self.pc = next;
                Ok(Stop::Region { number, low, high })
            }
            Stopped::NoMemory => Err(AllocError),
        }
    }

    fn leave(&mut self, store: &mut Store) {
        leave_around(self.code.instrs(), self.pc, store);
    }

    ghost only_prints = { λ frame n r course is. is.prints };
}
