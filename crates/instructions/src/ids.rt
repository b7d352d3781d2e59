//! The ids of the instructions that matched, gathered into one set (mod.rs: `add_execution_branch`).
ghost use Rattle.std.specs.Prelude.{◌≡◌};
ghost use Rattle.instructions.specs.FoundIds.{with_ids, with_ids_of};

use cells::{number_at, part_of};
use id_sets::add_id;

// The set with the listed ids.
fn add_ids(listed: &[u8], ids: &mut [u64])
    ensures { ids.new ≡ with_ids ids.old listed.now }
{
    for id in listed {
        add_id(ids, *id as usize);
    }
}

// The set with the ids of the found instructions: each row says where its record stands in the sheet.
pub fn gather_ids(sheet: &[u8], program: &[u32], found: &[u16], ids: &mut [u64])
    ensures { ids.new ≡ with_ids_of sheet.now program.now ids.old found.now }
{
    for a in found {
        let place = number_at(program, *a as usize * 8);
        let count = number_at(sheet, place + 2);
        add_ids(part_of(sheet, place + 3, place + 3 + count), ids);
    }
}
