//! Names of tags: equality, void names, the name key (01, section 3).
#![tactic(auto)]

ghost use Rattle.std.specs.Prelude.{◌≡◌, true, false, map};
ghost use Rattle.names.specs.Names.{same_name, among_names, void_names, esi_names, void_name, name_key};

use letters::{lower, same};

// Names are equal when equal after ASCII lower-casing.
pub fn same_name(a: &[u8], b: &[u8]) -> bool
    ensures { result ≡ same_name a.now b.now }
{
    same(a, true, b, true)
}

// The 17 void names.
const VOID_NAMES: [&[u8]; 17] = [
    b"area",
    b"base",
    b"basefont",
    b"bgsound",
    b"br",
    b"col",
    b"embed",
    b"hr",
    b"img",
    b"input",
    b"keygen",
    b"link",
    b"meta",
    b"param",
    b"source",
    b"track",
    b"wbr",
];

// The two that ESI adds.
const ESI_NAMES: [&[u8]; 2] = [b"esi:include", b"esi:comment"];

// Whether a name, under a case rule, is one of a list.
fn among(ignore: bool, name: &[u8], names: &[&[u8]]) -> bool
    ensures { result ≡ among_names ignore name.now (map (λ n. n.now) names.now) }
{
    names.iter().any(|n| same(name, ignore, n, false))
}

// Whether a name is one of the 17, in any case of its letters.
pub fn is_html_void(name: &[u8]) -> bool
    ensures { result ≡ among_names true name.now void_names }
{
    among(true, name, &VOID_NAMES)
}

// ESI names, by exact bytes.
pub fn is_esi_void(name: &[u8]) -> bool
    ensures { result ≡ among_names false name.now esi_names }
{
    among(false, name, &ESI_NAMES)
}

#[tactic(auto, unfolding(crate::specs::Names::void_name))]
pub fn is_void(name: &[u8], esi: bool) -> bool
    ensures { result ≡ void_name esi name.now }
{
    is_html_void(name) || (esi && is_esi_void(name))
}

// A number over all lower-cased bytes, never 0: names whose keys differ are different.
pub fn name_key(name: &[u8]) -> u32
    ensures { result ≡ name_key name.now }
{
    let hash = name.iter().fold(
        0u32,
        |hash, b| hash.wrapping_mul(31).wrapping_add(u32::from(lower(*b))),
    );
    hash % 2147483648 + 1
}
