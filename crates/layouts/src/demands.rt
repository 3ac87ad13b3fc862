// The copies of each kind in a layout.
ghost use Rattle.std.specs.Prelude.{◌≡◌};
ghost use Rattle.model.specs.Layout.{copies, demand_met};
ghost use Rattle.layouts.specs.Handed.{problem_for, layout_for};

use crate::handed::Handed;

impl<'a> Handed<'a> {
    // How many of the entries are of this kind.
    fn copies_of(&self, kind: usize) -> usize
        ensures { result ≡ copies kind (layout_for self.now) }
    {
        (0..self.prepared.view.pieces)
            .filter(|i| self.entry(*i).kind == kind)
            .count()
    }

    // Whether the entries are the demanded copies of every kind.
    pub fn demand_met(&self) -> bool
        ensures { result ≡ demand_met (problem_for self.now) (layout_for self.now) }
    {
        let view = &self.prepared.view;
        (0..view.kinds).all(|t| self.copies_of(t) == view.kind[t].demand)
    }
}
