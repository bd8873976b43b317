//! A call of the planner as a program: from its arguments to its exit code.
ghost use Rattle.std.specs.Prelude.{◌≡◌, IfOk, OnErr};
ghost use Rattle.driver_cli.specs.Program.{AreWords, Exits};
ghost use Rattle.driver_cli.specs.Sides.{read_side, write_side, sink_side};
ghost use Rattle.driver_cli.specs.Status.{exit_code_of};

use crate::answer::Status;
use crate::top::drive_tool;
use duty_core::NoMemory;
use outside::{Desk, Sink, Word};
use std::alloc::Global;
use std::env::Args;
use std::io::{self, ErrorKind};

/// The words of a program's arguments: all but the first, which names the program, and none at all
/// where the arguments cannot be had, as where one is no UTF-8. `NoMemory` where there is no memory for
/// them, or there was none for the arguments.
pub fn words_of(alloc: Global, arguments: io::Result<Args>) -> Result<Vec<Word>, NoMemory>
    ensures { IfOk result (λ words. AreWords arguments words.items) }
{
    match arguments {
        Ok(arguments) => {
            let mut words = Vec::new(alloc);
            for argument in arguments.skip(1) {
                words.push(Word::new(alloc, argument.as_str())?)?;
            }
            Ok(words)
        }
        Err(error) if error.kind() == ErrorKind::OutOfMemory => Err(NoMemory),
        Err(_) => Ok(Vec::new(alloc)),
    }
}

/// Does all that the planner does with these words, as `drive_tool` tells, and gives the exit code of
/// its status: that of `Memory`, and nothing is done, where there was no memory for the words.
pub fn exit_code_of_call<D: Desk, S: Sink>(
    alloc: Global,
    words: Result<Vec<Word>, NoMemory>,
    desk: &mut D,
    out: &mut S,
) -> u8
    ensures exits { IfOk words (λ words. Exits words.items (read_side D.Desk desk.old desk.new) (write_side D.Desk desk.old desk.new) (sink_side S.Sink out.old out.new) result) }
    ensures memory { OnErr words (result ≡ exit_code_of Status.Memory) }
    ensures same_desk { OnErr words (desk.new ≡ desk.old) }
    ensures same_sink { OnErr words (out.new ≡ out.old) }
{
    let status = match words {
        Ok(words) => drive_tool(alloc, &words, desk, out),
        Err(_) => Status::Memory,
    };
    status.exit_code()
}

#[cfg(test)]
mod tests {
    use super::*;
    use outside::{MemoryDesk, MemorySink};
    use std::test::Fail;

    #[test]
    fn ends_as_the_arguments_ask(rt: HostRuntime) -> Result<(), Fail> {
        let alloc = rt.alloc();
        let mut given = Vec::new(alloc);
        for argument in ["driver", "plan", "no.json", "no.csv", "c", "--budget", "3"] {
            given.push(argument.to_string(alloc)?)?;
        }
        let unread = io::Error::from(ErrorKind::InvalidData);
        let no_memory = io::Error::from(ErrorKind::OutOfMemory);
        let cases = [
            (Ok(given.into_iter()), 6, "read fault no.json\n"),
            (
                Err(unread),
                1,
                "usage: driver plan TOUR LOG CERT [--budget N]\n",
            ),
            (Err(no_memory), 8, ""),
        ];
        for (arguments, code, text) in cases {
            let words = words_of(alloc, arguments);
            let mut desk = MemoryDesk::new(alloc);
            let mut out = MemorySink::new(alloc);
            assert_eq!(rt; exit_code_of_call(alloc, words, &mut desk, &mut out), code);
            assert!(rt;
                out.bytes().starts_with(text.as_bytes()),
                "where {text} is sent"
            );
        }
        Ok(())
    }
}
