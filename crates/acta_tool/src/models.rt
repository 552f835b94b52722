//! The model in the bytes that a command is given.

ghost use Rattle.std.specs.Prelude.{◌≡◌, Ok, IfOk, IfErr};
ghost use Rattle.acta_io.specs.inside.Reports.{IsWhy};
ghost use Rattle.acta_tool.specs.Models.{model_by};

use crate::args::Command;
use acta_io::{ModelError, read_image, read_model, read_text};
use acta_table::Model;
use std::alloc::Allocator;

/// The model in the bytes: `assemble` takes only a text, `check-image` and `upgrade` only an image, all others take both.
pub fn read_model_for<A: Allocator + Copy>(
    alloc: A,
    command: Command,
    bytes: &[u8],
) -> Result<Model<A>, ModelError>
    ensures ok { IfOk result (λ model. model_by command bytes.now ≡ Ok model) }
    ensures fault { IfErr result (IsWhy (model_by {A = A} command bytes.now)) }
{
    match command {
        Command::Assemble => read_text(alloc, bytes),
        Command::CheckImage | Command::Upgrade => read_image(alloc, bytes),
        Command::Run { .. }
        | Command::Trace
        | Command::Judge
        | Command::Debug
        | Command::Serial
        | Command::Drive { .. } => read_model(alloc, bytes),
    }
}
