// Which entries of a layout of candidates are in conflict.
ghost use Rattle.std.specs.Prelude.{not, ◌≡◌, ◌<◌};
ghost use Rattle.model.specs.Layout.{apart};
ghost use Rattle.model.specs.Lists.{all, below};
ghost use Rattle.layouts.specs.Handed.{problem_for, layout_for, Admitted, conflict_in};

use crate::handed::Handed;

impl<'a> Handed<'a> {
    // Whether entries i and k are in conflict.
    fn in_conflict(&self, i: usize, k: usize) -> bool
        requires admitted { Admitted self.now }
        requires first { i < self.now.prepared.now.view.pieces }
        requires second { k < self.now.prepared.now.view.pieces }
        ensures { result ≡ conflict_in self.now i k }
    {
        let e = self.entry(i);
        let f = self.entry(k);
        self.prepared.in_conflict(e.kind, e.place, f.kind, f.place)
    }

    // Whether none of the entries before entry k is in conflict with it. All of them count, not the neighbour alone.
    fn clear_of_earlier(&self, k: usize) -> bool
        requires admitted { Admitted self.now }
        requires entry { k < self.now.prepared.now.view.pieces }
        ensures { result ≡ all (λ i. not (conflict_in self.now i k)) (below k) }
    {
        (0..k).all(|i| !self.in_conflict(i, k))
    }

    // Whether no two of the entries are in conflict.
    pub fn all_apart(&self) -> bool
        requires { Admitted self.now }
        ensures { result ≡ apart (problem_for self.now) (layout_for self.now) }
    {
        (0..self.prepared.view.pieces).all(|k| self.clear_of_earlier(k))
    }
}
