//! The stack rule, on code by hand, and the room of a frame.

use nona_code::{CodeFrame, Frame, Instr, Sound, verify};
use nona_tree::Op;
use std::alloc::{AllocError, Global};

/// Code that keeps the stack rule, of these instructions.
fn verified(alloc: Global, instrs: &[Instr]) -> Result<Option<Sound>, AllocError> {
    let mut code = Vec::new(alloc);
    code.extend_from_slice(instrs)?;
    verify(alloc, code)
}

/// The greatest depth and the greatest count of declared scalars, where the code keeps the rule.
fn numbers(alloc: Global, instrs: &[Instr]) -> Result<Option<(u32, u32)>, AllocError> {
    match verified(alloc, instrs)? {
        Some(code) => Ok(Some((code.deepest(), code.scalars()))),
        None => Ok(None),
    }
}

#[test]
fn code_that_keeps_the_rule_and_code_that_breaks_it(rt: HostRuntime) -> Result<(), AllocError> {
    use Instr::{Binary, Declare, Drop, Enter, Jump, Leave, Load, Print, Push, Save, Stop, Zero};
    let alloc = rt.alloc();
    let add = Binary(Op::Add, 0);
    let rows: [(&[Instr], Option<(u32, u32)>); 14] = [
        (&[Push(1), Print, Stop], Some((1, 0))),
        (&[Push(1), Stop], None),
        (&[Drop, Stop], None),
        (&[Jump(2), Stop], None),
        (&[], None),
        (&[Push(1), Push(2), add, Drop, Stop], Some((2, 0))),
        (
            &[Push(1), Declare, Push(2), Declare, Leave(2), Stop],
            Some((1, 2)),
        ),
        (&[Push(1), Declare, Leave(2), Stop], None),
        (&[Push(0), Zero(3), Stop, Stop], Some((1, 0))),
        (&[Push(0), Zero(3), Push(1), Stop], None),
        (&[Push(0), Zero(4), Push(1), Declare, Stop], None),
        (&[Stop, Jump(9)], None),
        (&[Load(2147483903), Save(2147483904), Stop], None),
        (&[Enter(256), Stop], None),
    ];
    for (code, want) in rows {
        assert_eq!(rt; numbers(alloc, code)?, want);
    }
    Ok(())
}

#[test]
fn frames_begin_where_memory_is_ample(rt: HostRuntime) -> Result<(), AllocError> {
    let alloc = rt.alloc();
    match verified(alloc, &[Instr::Push(1), Instr::Drop, Instr::Stop])? {
        Some(code) => {
            Frame::begin(alloc, &code)?;
            Frame::with_room(alloc, 300)?;
            CodeFrame::begin(alloc, &code)?;
            assert_eq!(rt; code.instrs().len(), 3);
            Ok(())
        }
        None => Err(AllocError),
    }
}
