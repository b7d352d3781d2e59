//! The checks of one node's record: refusals 8 to 12 with their places (01, sections 1 and 2).
#![tactic(auto)]

ghost use Rattle.std.specs.Prelude.{◌≡◌, ◌+◌, ◌≤◌};
ghost use Rattle.node_records.specs.LengthFields.{HoldsLengthField};
ghost use Rattle.node_records.specs.Records.{counts_at};
ghost use Rattle.refusals.specs.Numbers.{judged};
ghost use Rattle.node_records.specs.Checks.{kind_ok, name_length_ok, comparison_ok, body_ok, check_test, check_tests, rising, check_counts, check_ids, check_record, counts_of};

use cells::numbers::u16_at;
use cells::{get, number_at, part_of};
use refusals::{Fault, SheetRefusal};

// A node's record in a sheet: its length field stands at `at`, and it ends at `end`.
#[derive(Clone, Copy)]
struct Record<'s> {
    sheet: &'s [u8],
    at: usize,
    end: usize,
    ghost length_field: { at + 2 ≤ end },
}

/// Where a record ends, and how many child trees and descendant trees follow it.
#[derive(Clone, Copy)]
pub struct Links {
    pub next: usize,
    pub children: usize,
    pub descendants: usize,
}

#[tactic(auto, unfolding(crate::specs::Checks::kind_ok))]
fn kind_ok(attributes: bool, kind: u8) -> bool
    ensures { result ≡ kind_ok attributes kind }
{
    if attributes {
        (16..=25).contains(&kind)
    } else {
        (1..=5).contains(&kind)
    }
}

#[tactic(auto, unfolding(crate::specs::Checks::name_length_ok))]
fn name_length_ok(n: usize) -> bool
    ensures { result ≡ name_length_ok n }
{
    (1..=63).contains(&n)
}

#[tactic(auto, unfolding(crate::specs::Checks::comparison_ok))]
fn comparison_ok(body: &[u8]) -> bool
    ensures { result ≡ comparison_ok body.now }
{
    2 <= body.len() && number_at(body, 0) <= 3 && number_at(body, 1) + 2 <= body.len()
}

#[tactic(auto, unfolding(crate::specs::Checks::body_ok))]
fn body_ok(kind: u8, body: &[u8]) -> bool
    ensures { result ≡ body_ok kind body.now }
{
    match kind {
        1 | 2 | 19 => body.is_empty(),
        3 => name_length_ok(body.len()),
        4 | 5 => body.len() == 8,
        16..=18 => true,
        _ => comparison_ok(body),
    }
}

// Do the ids rise strictly, none above 127?
#[tactic(auto, unfolding(crate::specs::Checks::rising))]
fn ids_rise(ids: &[u8]) -> bool
    ensures { result ≡ rising 0 ids.now }
{
    let mut least = 0;
    for &id in ids {
        if !(least..=127).contains(&id) {
            return false;
        }
        least = id + 1;
    }
    true
}

impl<'s> Record<'s> {
    // The test at `at`, in the group of attribute tests or of tag tests.
    #[tactic(auto, unfolding(crate::specs::Checks::check_test))]
    fn check_test(self, attributes: bool, at: usize) -> Result<usize, Fault>
        ensures { judged result ≡ check_test self.entry.sheet.now self.entry.at self.entry.end attributes at }
    {
        if self.end - 2 < at {
            return Err(SheetRefusal::RecordOverrun.at(self.at));
        }
        let n = u16_at(self.sheet, at);
        if self.end - 2 - at < n {
            return Err(SheetRefusal::RecordOverrun.at(self.at));
        }
        if n < 2 {
            return Err(SheetRefusal::BadTest.at(at));
        }
        let kind = get(self.sheet, at + 2);
        if !kind_ok(attributes, kind) {
            return Err(SheetRefusal::UnknownKind.at(at));
        }
        if 1 < number_at(self.sheet, at + 3) {
            return Err(SheetRefusal::BadTest.at(at));
        }
        if !body_ok(kind, part_of(self.sheet, at + 4, at + 2 + n)) {
            return Err(SheetRefusal::BadTest.at(at));
        }
        Ok(at + 2 + n)
    }

    // As many tests as `count` says, from `at` on.
    #[tactic(auto, unfolding(crate::specs::Checks::check_tests, crate::specs::Checks::then_step))]
    fn check_tests(self, attributes: bool, count: usize, at: usize) -> Result<usize, Fault>
        ensures { judged result ≡ check_tests self.entry.sheet.now self.entry.at self.entry.end attributes count at }
    {
        let mut here = at;
        for _ in 0..count {
            here = self.check_test(attributes, here)?;
        }
        Ok(here)
    }

    // From its four numbers at `p` on.
    #[tactic(auto, unfolding(crate::specs::Checks::check_counts, crate::specs::Checks::then_step, crate::specs::Checks::counts_of))]
    fn check_counts(self, p: usize) -> Result<Links, Fault>
        requires { p ≤ self.end }
        ensures { judged result ≡ counts_of self.entry.sheet.now p (check_counts self.entry.sheet.now self.entry.at self.entry.end p) }
    {
        if self.end - p < 2 {
            return Err(SheetRefusal::RecordOverrun.at(self.at));
        }
        let tags = number_at(self.sheet, p);
        let attributes = number_at(self.sheet, p + 1);
        if tags + attributes == 0 {
            return Err(SheetRefusal::NoTest.at(self.at));
        }
        if self.end - p < 6 {
            return Err(SheetRefusal::RecordOverrun.at(self.at));
        }
        let middle = self.check_tests(false, tags, p + 6)?;
        let last = self.check_tests(true, attributes, middle)?;
        if last != self.end {
            return Err(SheetRefusal::RecordOverrun.at(self.at));
        }
        Ok(Links {
            next: self.end,
            children: u16_at(self.sheet, p + 2),
            descendants: u16_at(self.sheet, p + 4),
        })
    }

    // From its ids on.
    #[tactic(auto, unfolding(crate::specs::Checks::check_ids, crate::specs::Checks::counts_of))]
    fn check_ids(self) -> Result<Links, Fault>
        ensures { judged result ≡ counts_of self.entry.sheet.now (counts_at self.entry.sheet.now self.entry.at) (check_ids self.entry.sheet.now self.entry.at self.entry.end) }
    {
        if self.end - self.at < 3 {
            return Err(SheetRefusal::RecordOverrun.at(self.at));
        }
        let count = number_at(self.sheet, self.at + 2);
        if self.end - self.at - 3 < count {
            return Err(SheetRefusal::RecordOverrun.at(self.at));
        }
        if !ids_rise(part_of(self.sheet, self.at + 3, self.at + 3 + count)) {
            return Err(SheetRefusal::BadIds.at(self.at));
        }
        self.check_counts(self.at + 3 + count)
    }
}

// The record at `at`. Not inlined: what it takes of the stack would be taken at each level of a sheet's trees.
#[inline(never)]
#[tactic(auto, unfolding(crate::specs::Checks::check_record, crate::specs::Checks::counts_of))]
pub fn check_record(s: &[u8], at: usize) -> Result<Links, Fault>
    requires { HoldsLengthField s.now }
    ensures { judged result ≡ counts_of s.now (counts_at s.now at) (check_record s.now at) }
{
    if s.len() - 2 < at {
        return Err(SheetRefusal::RecordOverrun.at(at));
    }
    let n = u16_at(s, at);
    if s.len() - 2 - at < n {
        return Err(SheetRefusal::RecordOverrun.at(at));
    }
    let record = Record {
        sheet: s,
        at,
        end: at + 2 + n,
    };
    record.check_ids()
}
