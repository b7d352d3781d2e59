//! Going over the live instructions for a tag: by the tag alone until one asks for attributes, then with them (mod.rs).
ghost use Rattle.std.specs.Prelude.{◌≡◌, ◌+◌, ◌≤◌, ◌<◌, ◌^◌, ◌&&◌, max, length, ℕ, Bool, false};
ghost use Rattle.cells.specs.Stretches.{written};
ghost use Rattle.rules.specs.Attributes.{attributes_of};
ghost use Rattle.instructions.specs.Instructions.{tag_tests_pass, attribute_passes, asks};
ghost use Rattle.exec.specs.Scans.{tag_scan, answer_from, found_in, attribute_scan, seek, live};
ghost use Rattle.exec.specs.Searching.{Within, Judges, verdict_of};

use candidates::next_candidate;
use cells::put;
use cursors::{Cursor, Live};
use instructions::instruction::{asks_attributes, attributes_pass, tag_tests_pass, tests_bytes};
use node_tests::Tag;
use node_tests::attribute_matcher::AttributeMatcher;

// How many instructions matched, and the cursor on the one that asks for attributes, if the scan stopped there.
#[derive(Clone, Copy)]
pub struct Scanned {
    pub count: usize,
    pub stopped_at: Option<Cursor>,
}

// What becomes of an instruction whose key fits.
#[derive(Clone, Copy)]
enum Verdict {
    Fails,
    Matches,
    Asks,
}

// A tag's scan: the sheet, what is live, the tag, and the tag's name key.
#[derive(Clone, Copy)]
pub struct Scan<'s, 'n, 't> {
    pub sheet: &'s [u8],
    pub live: Live<'s, 'n>,
    pub tag: Tag<'t>,
    pub key: u32,
}

impl<'s, 'n, 't> Scan<'s, 'n, 't> {
    // The cursor on the next instruction whose key fits, if its tests are within the budget of bytes too, with the budget and the bytes of tests that are left after it.
    fn next(&self, from: Cursor, budget: usize, bytes: usize) -> Option<(Cursor, usize, usize)>
        ensures { Within self.now.sheet.now self.now.live.program.now self.now.live.nodes.now self.now.live.ranges self.now.key from budget bytes result }
    {
        let (d, left) = next_candidate(&self.live, self.key, from, budget)?;
        let taken = tests_bytes(self.sheet, self.live.program, d.at as u16);
        if bytes < taken {
            return None;
        }
        Some((d, left, bytes - taken))
    }

    // Going over the live instructions from the cursor on: those that match are written after the `count` found before, up to the first that asks for attributes.
    fn go_over<F: Fn(u16) -> Verdict>(
        &self,
        from: Cursor,
        budget: u16,
        count: u16,
        found: &mut [u16],
        verdict: F,
    ) -> Scanned
        requires { F.IsAlwaysCallable verdict }
        ensures { (passes asking : ℕ → Bool) → Judges self.now.live.program.now self.now.key passes asking (λ a v. F.post verdict a v)
            → let s = self.now in
            let sought = seek passes asking (live s.sheet.now s.live.program.now s.live.nodes.now s.live.ranges s.key from budget (length s.sheet.now)) in
            (result ≡ answer_from count sought) × (found.new ≡ written found.old count (found_in sought)) }
    {
        let mut c = from;
        let mut left = budget as usize;
        let mut bytes = self.sheet.len();
        let mut all = count as usize;
        // Kept as it is: each turn takes the cursor and the budgets that the one before left, which no range yields.
        while let Some((d, more, rest)) = self.next(c, left, bytes) {
            let a = d.at as u16;
            c = d.next();
            left = more;
            bytes = rest;
            match verdict(a) {
                Verdict::Fails => {}
                Verdict::Matches => {
                    put(found, all, a);
                    all += 1;
                }
                Verdict::Asks => {
                    return Scanned {
                        count: all,
                        stopped_at: Some(d),
                    };
                }
            }
        }
        Scanned {
            count: all,
            stopped_at: None,
        }
    }

    // An instruction by the tag alone.
    #[tactic(auto, unfolding(crate::specs::Searching::verdict_of))]
    fn tag_verdict(&self, a: u16) -> Verdict
        ensures { result ≡ verdict_of (tag_tests_pass self.now.sheet.now self.now.live.program.now self.now.tag.name.now self.now.tag.child self.now.tag.of_type a) (asks self.now.live.program.now a) }
    {
        if !tag_tests_pass(self.sheet, self.live.program, a, self.tag) {
            Verdict::Fails
        } else if asks_attributes(self.live.program, a) {
            Verdict::Asks
        } else {
            Verdict::Matches
        }
    }

    // An instruction with the attributes at hand: it asks for nothing.
    #[tactic(auto, unfolding(crate::specs::Searching::verdict_of))]
    fn attribute_verdict<'i, 'o>(&self, a: u16, attributes: AttributeMatcher<'i, 'o>) -> Verdict
        ensures { result ≡ verdict_of (tag_tests_pass self.now.sheet.now self.now.live.program.now self.now.tag.name.now self.now.tag.child self.now.tag.of_type a && attribute_passes self.now.sheet.now self.now.live.program.now attributes.entry.html (attributes_of attributes.entry.input.now attributes.entry.outlines.now) a) false }
    {
        if tag_tests_pass(self.sheet, self.live.program, a, self.tag)
            && attributes_pass(self.sheet, self.live.program, a, attributes)
        {
            Verdict::Matches
        } else {
            Verdict::Fails
        }
    }

    // The instructions that match by the tag alone, up to the first that asks for attributes; the found ones are written from the store's start on.
    pub fn by_tag(&self, from: Cursor, budget: u16, found: &mut [u16]) -> Scanned
        ensures { let s = self.now in
            let sought = tag_scan s.sheet.now s.live.program.now s.live.nodes.now s.live.ranges s.tag.name.now s.key s.tag.child s.tag.of_type from budget (length s.sheet.now) in
            (result ≡ answer_from 0 sought) × (found.new ≡ written found.old 0 (found_in sought)) }
    {
        self.go_over(from, budget, 0, found, |a| self.tag_verdict(a))
    }

    // All instructions that match with the attributes at hand, from the cursor on; they are written after the `count` found before, and the answer counts both.
    pub fn with_attributes<'i, 'o>(
        &self,
        attributes: AttributeMatcher<'i, 'o>,
        from: Cursor,
        budget: u16,
        count: u16,
        found: &mut [u16],
    ) -> usize
        ensures { let s = self.now in
            let matches = attribute_scan s.sheet.now s.live.program.now s.live.nodes.now s.live.ranges s.tag.name.now s.key s.tag.child s.tag.of_type attributes.entry.html (attributes_of attributes.entry.input.now attributes.entry.outlines.now) from budget (length s.sheet.now) in
            (result ≡ count + length matches) × (found.new ≡ written found.old count matches) }
    {
        self.go_over(
            from,
            budget,
            count,
            found,
            |a| self.attribute_verdict(a, attributes),
        )
        .count
    }
}
