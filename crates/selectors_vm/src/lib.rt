//! The machine as plain C functions (01, section 8), by the machine's own promises. A slice is a pointer and a number of elements; a flag is off at 0 and on otherwise.
#![tactic(auto)]

ghost use Rattle.std.specs.Prelude.{◌≡◌};
ghost use Rattle.making.specs.Making.{fresh_call};
ghost use Rattle.ends.specs.Ends.{end_call, id_set_call};
ghost use Rattle.starts.specs.Starts.{start_call};
ghost use Rattle.resumes.specs.Resumes.{attributes_call};
ghost use Rattle.stack.specs.Stores.{stores};
ghost use Rattle.told.specs.Told.{made_told, reply_told, popped_told, top_reply_told};
ghost use Rattle.selectors_vm.specs.Flags.{is_on};

use stack::machine::Machine;
use told::Told;

/// Makes a machine of a sheet, whatever its stores held.
#[unsafe(no_mangle)]
pub extern "C" fn selectors_vm_fresh(
    sheet: &[u8],
    program: &mut [u32],
    rows: &mut [u32],
    names: &[u8],
    ids: &[u64],
    nodes: &[u16],
    esi: u32,
) -> Told
    ensures { (result ≡ made_told (fresh_call sheet.now (is_on esi) program.old (stores rows.old names.now ids.now nodes.now)).made) × (program.new ≡ (fresh_call sheet.now (is_on esi) program.old (stores rows.old names.now ids.now nodes.now)).program) × (rows.new ≡ (fresh_call sheet.now (is_on esi) program.old (stores rows.old names.now ids.now nodes.now)).rows) }
{
    making::fresh_machine(sheet, esi != 0, program, rows, names, ids, nodes).into()
}

/// A start tag, by its namespace (0 HTML, 1 SVG, 2 MathML) and its name.
#[unsafe(no_mangle)]
pub extern "C" fn selectors_vm_start(
    sheet: &[u8],
    program: &[u32],
    rows: &mut [u32],
    names: &mut [u8],
    ids: &mut [u64],
    nodes: &mut [u16],
    namespace: u32,
    name: &[u8],
) -> Told
    ensures { (result ≡ reply_told (start_call sheet.now program.now (stores rows.old names.old ids.old nodes.old) namespace name.now).reply) × (stores rows.new names.new ids.new nodes.new ≡ (start_call sheet.now program.now (stores rows.old names.old ids.old nodes.old) namespace name.now).after) }
{
    let mut machine = Machine {
        sheet,
        program,
        rows,
        names,
        ids,
        nodes,
    };
    starts::start(&mut machine, namespace, name).into()
}

/// The attributes of the tag that waits: its bytes, and outlines in fours (name start, name end, value start, value end).
#[unsafe(no_mangle)]
pub extern "C" fn selectors_vm_attributes(
    sheet: &[u8],
    program: &[u32],
    rows: &mut [u32],
    names: &mut [u8],
    ids: &mut [u64],
    nodes: &mut [u16],
    self_closing: u32,
    input: &[u8],
    outlines: &[u32],
) -> Told
    ensures { (result ≡ reply_told (attributes_call sheet.now program.now (stores rows.old names.old ids.old nodes.old) (is_on self_closing) input.now outlines.now).reply) × (stores rows.new names.new ids.new nodes.new ≡ (attributes_call sheet.now program.now (stores rows.old names.old ids.old nodes.old) (is_on self_closing) input.now outlines.now).after) }
{
    let mut machine = Machine {
        sheet,
        program,
        rows,
        names,
        ids,
        nodes,
    };
    resumes::attributes(&mut machine, self_closing != 0, input, outlines).into()
}

/// An end tag. Two id words for each popped element go to `popped`, in opening order.
#[unsafe(no_mangle)]
pub extern "C" fn selectors_vm_end(
    sheet: &[u8],
    program: &[u32],
    rows: &mut [u32],
    names: &[u8],
    ids: &[u64],
    nodes: &[u16],
    name: &[u8],
    popped: &mut [u64],
) -> Told
    ensures { (result ≡ popped_told (end_call sheet.now program.now (stores rows.old names.now ids.now nodes.now) name.now popped.old).answer) × (rows.new ≡ (end_call sheet.now program.now (stores rows.old names.now ids.now nodes.now) name.now popped.old).rows) × (popped.new ≡ (end_call sheet.now program.now (stores rows.old names.now ids.now nodes.now) name.now popped.old).out) }
{
    ends::end(sheet, program, rows, names, ids, nodes, name, popped).into()
}

/// The id set of the top open element, never of the waiting tag.
#[unsafe(no_mangle)]
pub extern "C" fn selectors_vm_id_set(
    sheet: &[u8],
    program: &[u32],
    rows: &[u32],
    names: &[u8],
    ids: &[u64],
    nodes: &[u16],
) -> Told
    ensures { result ≡ top_reply_told (id_set_call sheet.now program.now (stores rows.now names.now ids.now nodes.now)) }
{
    ends::id_set(sheet, program, rows, names, ids, nodes).into()
}
