//! The cursor over the live instructions, stepped by value (mod.rs: `JumpPtr`, `HereditaryJumpPtr`).
#![tactic(auto)]

ghost use Rattle.std.specs.Prelude.{◌≡◌, ◌<◌, ◌-◌, ◌^◌};
ghost use Rattle.cursors.specs.Cursors.{first_cursor, after_cursor, range_at, jump_of};

use cells::number_at;

// Which slots hold the matched nodes whose ranges are live, and how many instructions there are.
#[derive(Clone, Copy)]
pub struct Ranges {
    pub parents_top: usize,
    pub ancestors_from: usize,
    pub ancestors_top: usize,
    pub limit: u16,
}

// What a cursor goes over: the program's rows, the lists of matched nodes, and which of these are live.
#[derive(Clone, Copy)]
pub struct Live<'p, 'n> {
    pub program: &'p [u32],
    pub nodes: &'n [u16],
    pub ranges: Ranges,
}

// The stages of a cursor, as the header's word 8 holds them: at the roots or at child ranges, and at descendant ranges.
// Kept as it is: `held_cursor` promises the number of the header's word 8 whatever it is, so the stage is no enum.
const AT_CHILDREN: u32 = 0;

const AT_DESCENDANTS: u32 = 1;

// The words of a node's row where its child range and its descendant range begin; their lengths follow them.
const CHILDREN: usize = 3;

const DESCENDANTS: usize = 5;

// `slot` is the next node whose range comes.
#[derive(Clone, Copy)]
pub struct Cursor {
    pub stage: u32,
    pub slot: usize,
    pub at: usize,
    pub stop: usize,
}

impl<'p, 'n> Live<'p, 'n> {
    // The range of the node in a slot; `word` is where its row has it.
    #[tactic(auto, unfolding(crate::specs::Cursors::range_at))]
    fn range_at(&self, word: usize, stage: u32, slot: usize) -> Cursor
        requires { (word < 8) × (slot < 2 ^ 64 - 1) }
        ensures { result ≡ range_at self.now.program.now self.now.nodes.now word stage slot }
    {
        let node = number_at(self.nodes, slot);
        let first = number_at(self.program, node * 8 + word);
        let count = number_at(self.program, node * 8 + word + 1);
        Cursor {
            stage,
            slot: slot + 1,
            at: first,
            stop: first + count,
        }
    }
}

impl Cursor {
    // At the first root; the first node with a child range is in `slot`.
    #[tactic(auto, unfolding(crate::specs::Cursors::first_cursor))]
    pub fn first(slot: usize, roots: usize) -> Cursor
        ensures { result ≡ first_cursor slot roots }
    {
        Cursor {
            stage: AT_CHILDREN,
            slot,
            at: 0,
            stop: roots,
        }
    }

    // Past the instruction that it stands on, if it stands on one.
    #[tactic(auto, unfolding(crate::specs::Cursors::after_cursor))]
    pub fn next(self) -> Cursor
        ensures { result ≡ after_cursor self }
    {
        if self.at < self.stop {
            Cursor {
                at: self.at + 1,
                ..self
            }
        } else {
            self
        }
    }

    // The range after the one that it stands in: child ranges first, then descendant ranges.
    #[tactic(auto, unfolding(crate::specs::Cursors::jump_of))]
    pub fn jump<'p, 'n>(self, live: &Live<'p, 'n>) -> Option<Cursor>
        ensures { result ≡ jump_of live.now.program.now live.now.nodes.now live.now.ranges self }
    {
        match self.stage {
            AT_CHILDREN if self.slot < live.ranges.parents_top => {
                Some(live.range_at(CHILDREN, AT_CHILDREN, self.slot))
            }
            AT_CHILDREN => Some(Cursor {
                stage: AT_DESCENDANTS,
                slot: live.ranges.ancestors_from,
                at: 0,
                stop: 0,
            }),
            _ if self.slot < live.ranges.ancestors_top => {
                Some(live.range_at(DESCENDANTS, AT_DESCENDANTS, self.slot))
            }
            _ => None,
        }
    }
}
