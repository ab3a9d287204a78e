//! The commands of scripts.

use morta_script::{Command, read_script};
use morta_task::Config;
use std::test::Fail;

/// `use seq 1`, for so many iterations where that is said.
fn one_thread(until: Option<u64>) -> Command {
    Command::Use {
        config: Config::SEQ,
        until,
    }
}

#[test]
fn commands_of_a_text(rt: HostRuntime) -> Result<(), Fail> {
    let script = read_script(
        rt.alloc(),
        b"use seq 1\n\n# x\n\tuse seq \t01\tuntil\t0007 \r\n",
    )?;
    assert_eq!(rt;
        script.commands.as_slice(),
        [one_thread(None), one_thread(Some(7))].as_slice()
    );
    Ok(())
}
