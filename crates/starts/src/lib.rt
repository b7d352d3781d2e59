//! The call for a start tag (mod.rs). Any bytes are answered or refused; a refused call changes nothing.
#![tactic(auto)]

ghost use Rattle.std.specs.Prelude.{◌≡◌, ◌≤◌};
ghost use Rattle.sheet.specs.Parser.{node_count};
ghost use Rattle.stack.specs.Lent.{contents, SameLoans};
ghost use Rattle.accepting.specs.Accepting.{reply_of, Limited, outcome};
ghost use Rattle.tags.specs.Tags.{lowered};
ghost use Rattle.starts.specs.Starts.{start_call};

use accepting::Answer;
use course::{begin_scan, kind_of};
use names::is_void;
use refusals::Refusal;
use shapes::{check_machine, is_esi_on};
use stack::machine::Machine;
use tags::start_found;
use weighing::{are_pairs_full, check_tag, lower_into};

// A start tag by its lower-cased name and its kind.
fn start_lowered(machine: &mut Machine, name: &[u8], kind: u32) -> Result<Answer, Refusal>
    requires limited { Limited machine.old.rows.now name.now }
    requires nodes_few { node_count machine.old.sheet.now ≤ 1024 }
    ensures answered { outcome (reply_of result) (contents machine.new) ≡ lowered machine.old.sheet.now machine.old.program.now (contents machine.old) name.now kind }
    ensures lent { SameLoans machine.old machine.new }
{
    let rows = &mut *machine.rows;
    let names = &mut *machine.names;
    if are_pairs_full(rows, names, name) {
        return Err(Refusal::TooManyTypes);
    }
    let mut found = [0; 1024];
    let nodes = &mut *machine.nodes;
    let scanned = begin_scan(
        machine.sheet,
        machine.program,
        rows,
        names,
        nodes,
        name,
        kind,
        &mut found,
    );
    start_found(
        machine,
        name,
        kind,
        &found[0..scanned.count],
        scanned.stopped_at,
    )
}

/// A start tag, by its namespace (0 HTML, 1 SVG, 2 MathML) and its name.
pub fn start(machine: &mut Machine, namespace: u32, name: &[u8]) -> Result<Answer, Refusal>
    ensures answered { outcome (reply_of result) (contents machine.new) ≡ start_call machine.old.sheet.now machine.old.program.now (contents machine.old) namespace name.now }
    ensures lent { SameLoans machine.old machine.new }
{
    check_machine(machine)?;
    let rows = &mut *machine.rows;
    check_tag(rows, namespace, name)?;
    let mut low = [0; 64];
    lower_into(name, &mut low);
    let n = name.len();
    let kind = kind_of(namespace, is_void(name, is_esi_on(rows)));
    start_lowered(machine, &low[0..n], kind)
}
