//! How the program ends where a saved state is refused.
ghost use Rattle.std.specs.Prelude.{◌≡◌, IfOk};
ghost use Rattle.program_answers.specs.declared.status.TheConstants.{STATE};
ghost use Rattle.program_answers.specs.Endings.{IsRefusal};
ghost use Rattle.model_program.specs.Answer.{state_line};

use delta_exchange::OutOfMemory;
use program_answers::Ending;
use run_save::state_code_name;
use std::alloc::Global;

/// The line for a saved state that is refused with this code at this line.
#[tactic(auto, unfolding(crate::specs::Answer::state_line))]
fn state_line(alloc: Global, code: u8, line: u64) -> Result<Vec<u8>, OutOfMemory>
    ensures { IfOk result (λ told. told.items ≡ state_line code line) }
{
    let name = state_code_name(code);
    let told = format!(in alloc; "state: {code} {name} line {line}\n")?;
    Ok(told.into_bytes())
}

/// The ending of a saved state that is refused with this code at this line.
pub fn refused_state(alloc: Global, code: u8, line: u64) -> Ending
    ensures { IsRefusal STATE (state_line code line) result }
{
    match state_line(alloc, code, line) {
        Ok(line) => Ending::RefusedState { line },
        Err(_) => Ending::OutOfMemory,
    }
}
