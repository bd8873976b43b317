//! A file that is put.
ghost use Rattle.std.specs.Prelude.{◌≡◌, IfOk};
ghost use Rattle.driver_cli.specs.Sides.{read_side, write_side, IsUnfailed};
ghost use Rattle.driver_cli.specs.Steps.{IsFilePut};
ghost use Rattle.driver_cli.specs.Texts.{write_fault_text};

use crate::answer::{Answer, Halt, Status};
use crate::texts::write_fault_text;
use duty_core::NoMemory;
use outside::{Desk, DeskFault, Word};
use std::alloc::Global;

/// The answer where the file of that name could not be put.
fn write_fault(alloc: Global, name: &Word) -> Result<Answer, NoMemory>
    ensures { IfOk result (λ answer. (answer.status ≡ Status.WriteFault) × (answer.text ≡ write_fault_text name.now)) }
{
    Ok(Answer {
        status: Status::WriteFault,
        text: write_fault_text(alloc, name)?,
    })
}

/// Makes the file of that name hold these bytes. Answered as `WriteFault` where it cannot be put.
pub fn put<D: Desk>(alloc: Global, name: &Word, bytes: &[u8], desk: &mut D) -> Result<(), Halt>
    ensures unfailed { IsUnfailed (read_side D.Desk desk.old desk.new) }
    ensures put { IsFilePut name.now bytes.now (write_side D.Desk desk.old desk.new) result }
{
    match desk.put(name, bytes) {
        Ok(()) => Ok(()),
        Err(DeskFault::Failed) => Err(Halt::Answered(write_fault(alloc, name)?)),
        Err(DeskFault::Memory) => Err(Halt::Memory),
    }
}
