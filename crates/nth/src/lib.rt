//! The nth test (An+B), exact for every i32 and every position.
#![tactic(auto)]

ghost use Rattle.std.specs.Prelude.{◌≡◌, pos};
ghost use Rattle.nth.specs.Nth.{nth_holds};

// Whether a whole n >= 0 has step * n + offset = index. The difference may leave 32 bits, so it is taken in 64.
pub fn nth(step: i32, offset: i32, index: u32) -> bool
    ensures { result ≡ nth_holds step offset (pos index) }
{
    let s = step as i64;
    let d = index as i64 - offset as i64;
    if s == 0 {
        return d == 0;
    }
    d % s == 0 && if s < 0 { d <= 0 } else { d >= 0 }
}
