//! Whether the stores lent with a call have the sizes and the shape of a machine (01, section 2: 31 and 30), and what the header says of the machine.
#![tactic(auto)]

ghost use Rattle.std.specs.Prelude.{◌≡◌};
ghost use Rattle.refusals.specs.Numbers.{number_of};
ghost use Rattle.stack.specs.Lent.{contents};
ghost use Rattle.stack.specs.Stores.{stores};
ghost use Rattle.shapes.specs.Shapes.{esi_on, types_counted, sized, header_shaped, shaped, state_refusal};

use cells::numbers::u16_at;
use cells::{get, number_at};
use refusals::Refusal;
use stack::machine::Machine;
use stack::{
    ANCESTORS_TOP, FLAGS, HELD_FOUND, HELD_NAME, INSTRUCTION, MARK, OPENS, PAIRS_TOP, PARENTS_TOP,
    SHEET, WAITS,
};

// The least sizes of the stores:
pub const ROWS_SIZE: usize = 3096;

pub const NAMES_SIZE: usize = 49216;

pub const IDS_SIZE: usize = 514;

pub const NODES_SIZE: usize = 6144;

// The most that a machine keeps:
pub const OPEN_LIMIT: usize = 256;

pub const PARENT_LIMIT: usize = 4096;

pub const ANCESTOR_LIMIT: usize = 1024;

pub const PAIR_LIMIT: usize = 512;

pub const NAME_LIMIT: usize = 63;

pub const NODE_LIMIT: usize = 1024;

// The mark of rows in which a machine was made.
pub const MADE_MARK: u32 = 1383429737;

// The flags' highest value.
pub const ALL_FLAGS: usize = 3;

pub fn is_esi_on(rows: &[u32]) -> bool
    ensures { result ≡ esi_on rows.now }
{
    get(rows, FLAGS) % 2 == 1
}

pub fn counts_types(rows: &[u32]) -> bool
    ensures { result ≡ types_counted rows.now }
{
    get(rows, FLAGS) / 2 % 2 == 1
}

// 31: whether every store has at least its size.
#[tactic(auto, unfolding(crate::specs::Shapes::sized))]
pub fn is_sized(rows: &[u32], names: &[u8], ids: &[u64], nodes: &[u16]) -> bool
    ensures { result ≡ sized (stores rows.now names.now ids.now nodes.now) }
{
    ROWS_SIZE <= rows.len()
        && NAMES_SIZE <= names.len()
        && IDS_SIZE <= ids.len()
        && NODES_SIZE <= nodes.len()
}

// 30, the words of the header that a made machine keeps within limits.
#[tactic(auto, unfolding(crate::specs::Shapes::header_shaped))]
fn is_header_shaped(rows: &[u32], count: usize) -> bool
    ensures { result ≡ header_shaped rows.now count }
{
    number_at(rows, OPENS) <= OPEN_LIMIT
        && number_at(rows, PARENTS_TOP) <= PARENT_LIMIT
        && number_at(rows, ANCESTORS_TOP) <= ANCESTOR_LIMIT
        && number_at(rows, PAIRS_TOP) <= PAIR_LIMIT
        && number_at(rows, WAITS) <= 1
        && number_at(rows, HELD_NAME) <= NAME_LIMIT
        && number_at(rows, HELD_FOUND) <= count
        && number_at(rows, FLAGS) <= ALL_FLAGS
}

// 30: whether the lent sheet, instructions and header keep the shape rules.
#[tactic(auto, unfolding(crate::specs::Shapes::shaped))]
pub fn is_shaped(sheet: &[u8], program: &[u32], rows: &[u32]) -> bool
    ensures { result ≡ shaped sheet.now program.now rows.now }
{
    let count = u16_at(sheet, 5);
    get(rows, MARK) == MADE_MARK
        && number_at(rows, SHEET) == sheet.len()
        && count <= NODE_LIMIT
        && count * INSTRUCTION <= program.len()
        && is_header_shaped(rows, count)
}

// 31, 30.
// Kept as it is: the C interface lends names, ids and nodes read-only to some calls, and a Machine has them to write.
#[tactic(auto, unfolding(crate::specs::Shapes::state_refusal))]
pub fn check_state(
    sheet: &[u8],
    program: &[u32],
    rows: &[u32],
    names: &[u8],
    ids: &[u64],
    nodes: &[u16],
) -> Result<(), Refusal>
    ensures { number_of result ≡ state_refusal sheet.now program.now (stores rows.now names.now ids.now nodes.now) }
{
    if !is_sized(rows, names, ids, nodes) {
        return Err(Refusal::StoreTooShort);
    }
    if !is_shaped(sheet, program, rows) {
        return Err(Refusal::BadShape);
    }
    Ok(())
}

// 31, 30, where the machine is one value.
pub fn check_machine(machine: &Machine) -> Result<(), Refusal>
    ensures { number_of result ≡ state_refusal machine.now.sheet.now machine.now.program.now (contents machine.now) }
{
    check_state(
        machine.sheet,
        machine.program,
        machine.rows,
        machine.names,
        machine.ids,
        machine.nodes,
    )
}
