//! The operators of attribute tests: a value compared with an operand (01, section 3).
#![tactic(auto)]

ghost use Rattle.std.specs.Prelude.{◌≡◌};
ghost use Rattle.operators.specs.Operators.{begins_with, prefix_holds, suffix_holds, dash_holds, substring_holds, includes_holds, operator_holds};

use letters::{is_attr_whitespace, same};

#[derive(Clone, Copy)]
pub enum Operator {
    Equal,
    Includes,
    Dash,
    Prefix,
    Suffix,
    Substring,
}

// Whether `value` begins with `operand`.
#[tactic(auto, unfolding(crate::specs::Operators::begins_with))]
pub fn begins(value: &[u8], operand: &[u8], f: bool) -> bool
    ensures { result ≡ begins_with f value.now operand.now }
{
    if value.len() < operand.len() {
        return false;
    }
    same(&value[..operand.len()], f, operand, f)
}

// [att^=val]
#[tactic(auto, unfolding(crate::specs::Operators::prefix_holds))]
pub fn has_attr_with_prefix(value: &[u8], operand: &[u8], f: bool) -> bool
    ensures { result ≡ prefix_holds f value.now operand.now }
{
    !value.is_empty() && begins(value, operand, f)
}

// [att$=val]
#[tactic(auto, using(crate::proofs::Turns::suffixes), unfolding(crate::specs::Operators::suffix_holds))]
pub fn has_attr_with_suffix(value: &[u8], operand: &[u8], f: bool) -> bool
    ensures { result ≡ suffix_holds f value.now operand.now }
{
    if value.is_empty() || value.len() < operand.len() {
        return false;
    }
    let at = value.len() - operand.len();
    same(&value[at..], f, operand, f)
}

// [att|=val]
#[tactic(auto, unfolding(crate::specs::Operators::dash_holds))]
pub fn has_dash_matching_attr(value: &[u8], operand: &[u8], f: bool) -> bool
    ensures { result ≡ dash_holds f value.now operand.now }
{
    same(value, f, operand, f)
        || value.get(operand.len()) == Some(&b'-') && begins(value, operand, f)
}

// [att*=val]
pub fn has_attr_with_substring(value: &[u8], operand: &[u8], f: bool) -> bool
    ensures { result ≡ substring_holds f value.now operand.now }
{
    if operand.is_empty() {
        return false;
    }
    for i in 0..value.len() {
        if begins(&value[i..], operand, f) {
            return true;
        }
    }
    false
}

// [att~=val]
pub fn matches_splitted_by_whitespace(value: &[u8], operand: &[u8], f: bool) -> bool
    ensures { result ≡ includes_holds f value.now operand.now }
{
    value
        .split(|b| is_attr_whitespace(*b))
        .any(|part| same(part, f, operand, f))
}

// A value against an operand.
#[tactic(auto, unfolding(crate::specs::Operators::operator_holds))]
pub fn compare(operator: Operator, value: &[u8], operand: &[u8], f: bool) -> bool
    ensures { result ≡ operator_holds operator f value.now operand.now }
{
    match operator {
        Operator::Equal => same(value, f, operand, f),
        Operator::Includes => matches_splitted_by_whitespace(value, operand, f),
        Operator::Dash => has_dash_matching_attr(value, operand, f),
        Operator::Prefix => has_attr_with_prefix(value, operand, f),
        Operator::Suffix => has_attr_with_suffix(value, operand, f),
        Operator::Substring => has_attr_with_substring(value, operand, f),
    }
}
