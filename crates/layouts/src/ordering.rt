// The order of a layout's entries.
ghost use Rattle.std.specs.Prelude.{◌≡◌, ◌+◌, ◌≤◌, ◌<◌};
ghost use Rattle.model.specs.Layout.{ordered};
ghost use Rattle.layouts.specs.Entries.{Small, as_entry};
ghost use Rattle.layouts.specs.Handed.{problem_for, layout_for};
ghost use Rattle.layouts.specs.Passing.{number_by, in_order_by, ordered_at};

use crate::handed::{Entry, Handed};

// The candidate number that an entry's column, row and rotation have on a board of so many rows.
fn number_of(rows: usize, e: Entry) -> usize
    requires { (rows ≤ 1001) × Small e }
    ensures { result ≡ number_by rows (as_entry e) }
{
    (e.place.column * rows + e.place.row) * 4 + e.place.rotation
}

// Whether the entry e may stand right before the entry f.
fn in_order(rows: usize, e: Entry, f: Entry) -> bool
    requires { (rows ≤ 1001) × (Small e × Small f) }
    ensures { result ≡ in_order_by rows (as_entry e) (as_entry f) }
{
    if e.kind == f.kind {
        return number_of(rows, e) < number_of(rows, f);
    }
    e.kind < f.kind
}

impl<'a> Handed<'a> {
    // Whether entry i stands in order before the next.
    fn in_order_at(&self, i: usize) -> bool
        requires { i + 1 < self.now.prepared.now.view.pieces }
        ensures { result ≡ ordered_at self.now.prepared.now.view.rows self.now.layout.now i }
    {
        in_order(self.prepared.view.rows, self.entry(i), self.entry(i + 1))
    }

    // Whether each of the entries stands in order before the next.
    pub fn in_order(&self) -> bool
        ensures { result ≡ ordered (problem_for self.now) (layout_for self.now) }
    {
        (1..self.prepared.view.pieces).all(|i| self.in_order_at(i - 1))
    }
}
