//! Cells of one store written into another, cell by cell.
ghost use Rattle.std.specs.Prelude.{◌≡◌};
ghost use Rattle.cells.specs.Numbers.{IsPlace};
ghost use Rattle.cells.specs.Stretches.{cells_or, written};

use cells::{Cell, get, put};

pub fn copy<T: Cell>(from: &[T], start: usize, n: usize, to: &mut [T], at: usize)
    requires { IsPlace start × IsPlace n × IsPlace at }
    ensures { to.new ≡ written to.old at (cells_or T.empty from.now start n) }
{
    for i in 0..n {
        put(to, at + i, get(from, start + i));
    }
}
