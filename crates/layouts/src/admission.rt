// Which entries of a layout are candidates.
ghost use Rattle.std.specs.Prelude.{◌≡◌, ◌<◌};
ghost use Rattle.model.specs.Layout.{is_entry};
ghost use Rattle.model.specs.Lists.{all};
ghost use Rattle.model.specs.Services.{entry_in};
ghost use Rattle.layouts.specs.Handed.{problem_for, layout_for};

use crate::handed::Handed;

impl<'a> Handed<'a> {
    // Whether entry i is a candidate.
    fn is_admitted(&self, i: usize) -> bool
        requires { i < self.now.prepared.now.view.pieces }
        ensures { result ≡ is_entry (problem_for self.now) (entry_in self.now.layout.now i) }
    {
        let e = self.entry(i);
        self.prepared.is_placement(e.kind, e.place)
    }

    // Whether each of the entries is.
    pub fn all_admitted(&self) -> bool
        ensures { result ≡ all (is_entry (problem_for self.now)) (layout_for self.now) }
    {
        (0..self.prepared.view.pieces).all(|i| self.is_admitted(i))
    }
}
