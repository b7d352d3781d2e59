//! A machine is made (mod.rs): its sheet checked and compiled, ESI fixed, nothing open; or it is refused, and nothing changes.
#![tactic(auto)]

ghost use Rattle.std.specs.Prelude.{◌≡◌};
ghost use Rattle.making.specs.Making.{flags_of, made_of, fresh, fresh_call};
ghost use Rattle.making.specs.declared.Unmade.{Unmade};
ghost use Rattle.stack.specs.Stores.{stores};

use compiler::compile;
use refusals::{Fault, Refusal};
use shapes::{MADE_MARK, is_sized};
use waiting::fresh_rows;
use weighing::cell_of;

/// Why no machine is made: its sheet is at fault, or a store is too short.
#[derive(Clone, Copy, Debug, PartialEq, Eq)]
pub enum Unmade {
    Sheet(Fault),
    Refused(Refusal),
}

impl From<Fault> for Unmade {
    ghost from_gives = { λ fault e. e ≡ Unmade.Sheet fault };

    fn from(fault: Fault) -> Unmade {
        Unmade::Sheet(fault)
    }
}

impl From<Refusal> for Unmade {
    ghost from_gives = { λ refusal e. e ≡ Unmade.Refused refusal };

    fn from(refusal: Refusal) -> Unmade {
        Unmade::Refused(refusal)
    }
}

fn flags_of(esi: bool, types: bool) -> u32
    ensures { result ≡ flags_of esi types }
{
    u32::from(esi) + 2 * u32::from(types)
}

/// Makes a machine: checks and compiles the sheet, fixes ESI, whatever the stores held.
// Kept as it is: the C interface lends names, ids and nodes read-only here, and a Machine has them to write.
pub fn fresh_machine(
    sheet: &[u8],
    esi: bool,
    program: &mut [u32],
    rows: &mut [u32],
    names: &[u8],
    ids: &[u64],
    nodes: &[u16],
) -> Result<(), Unmade>
    ensures { fresh (made_of result) program.new rows.new ≡ fresh_call sheet.now esi program.old (stores rows.old names.now ids.now nodes.now) }
{
    if !is_sized(rows, names, ids, nodes) {
        return Err(Refusal::StoreTooShort.into());
    }
    let types = compile(sheet, program)?;
    fresh_rows(rows, MADE_MARK, cell_of(sheet.len()), flags_of(esi, types));
    Ok(())
}
