//! The calls about what is open (mod.rs): end tag, id set asked. Any bytes are answered or refused; a refused call changes nothing.
#![tactic(auto)]

ghost use Rattle.std.specs.Prelude.{◌≡◌};
ghost use Rattle.stack.specs.Stores.{stores, popped_count};
ghost use Rattle.ends.specs.Ends.{popped_of, top_of, ended, popping, end_call, id_set_call};

use items::{count_popped, pop_items, top_ids};
use refusals::Refusal;
use shapes::check_state;
use stack::ID_WORDS;
use weighing::{check_end, lower_into};

// The pop of an end tag whose lower-cased name is at hand.
fn end_lowered(
    rows: &mut [u32],
    names: &[u8],
    ids: &[u64],
    name: &[u8],
    out: &mut [u64],
) -> Result<usize, Refusal>
    ensures { ended (popped_of result) rows.new out.new ≡ popping rows.old ids.now out.old (popped_count rows.old names.now name.now) }
{
    let n = count_popped(rows, names, name);
    if out.len() / ID_WORDS < n {
        return Err(Refusal::BufferTooShort);
    }
    pop_items(rows, ids, n, out);
    Ok(n)
}

/// An end tag. The ids of the popped go to `out` in opening order, two words each; words past them stay.
// Kept as it is: the C interface lends names, ids and nodes read-only here, and a Machine has them to write.
pub fn end(
    sheet: &[u8],
    program: &[u32],
    rows: &mut [u32],
    names: &[u8],
    ids: &[u64],
    nodes: &[u16],
    name: &[u8],
    out: &mut [u64],
) -> Result<usize, Refusal>
    ensures { ended (popped_of result) rows.new out.new ≡ end_call sheet.now program.now (stores rows.old names.now ids.now nodes.now) name.now out.old }
{
    check_state(sheet, program, rows, names, ids, nodes)?;
    check_end(rows, name)?;
    let mut low = [0; 64];
    lower_into(name, &mut low);
    let n = name.len();
    end_lowered(rows, names, ids, &low[0..n], out)
}

/// The id set of the top open element, never of the waiting tag; or that nothing is open.
pub fn id_set(
    sheet: &[u8],
    program: &[u32],
    rows: &[u32],
    names: &[u8],
    ids: &[u64],
    nodes: &[u16],
) -> Result<Option<[u64; 2]>, Refusal>
    ensures { top_of result ≡ id_set_call sheet.now program.now (stores rows.now names.now ids.now nodes.now) }
{
    check_state(sheet, program, rows, names, ids, nodes)?;
    Ok(top_ids(rows, ids))
}
