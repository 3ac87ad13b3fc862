// The length of a layout of candidates.
ghost use Rattle.std.specs.Prelude.{◌≡◌, ◌<◌, ◌≤◌};
ghost use Rattle.model.specs.Layout.{entry_extent, layout_length};
ghost use Rattle.model.specs.Services.{entry_in};
ghost use Rattle.layouts.specs.Handed.{problem_for, layout_for, Admitted};

use crate::handed::Handed;

impl<'a> Handed<'a> {
    // Where entry i ends: on the board.
    fn end_of(&self, i: usize) -> usize
        requires admitted { Admitted self.now }
        requires entry { i < self.now.prepared.now.view.pieces }
        ensures end { result ≡ entry_extent (problem_for self.now) (entry_in self.now.layout.now i) }
        ensures on_board { result ≤ 1000 }
    {
        let e = self.entry(i);
        self.prepared.extent(e.kind, e.place)
    }

    // The length of the entries: the largest of their ends, plus the margin.
    pub fn length(&self) -> usize
        requires { Admitted self.now }
        ensures length { result ≡ layout_length (problem_for self.now) (layout_for self.now) }
        ensures most { result ≤ 1063 }
    {
        let mut longest = 0usize;
        for i in 0..self.prepared.view.pieces {
            longest = longest.max(self.end_of(i));
        }
        longest + self.prepared.view.margin
    }
}
