// An accepted job with all that is computed once for a call on it, and what the layers above ask of it.
ghost use Rattle.candidates.specs.Conflicts.{Prepared};
ghost use Rattle.candidates.specs.Facts.{facts};

use crate::conflicts::{Placed, conflict_between, pair_gap};
use crate::placements;
use job::View;
use shapes::boxes::{Boxes, boxes_of};
use shapes::pieces::piece_of;

// The job's bytes, its view under a margin, the table of its turned parts, and the boxes of its kinds.
#[derive(Clone, Copy)]
pub struct PreparedJob<'a> {
    pub job: &'a [u8],
    pub view: View,
    pub turned: &'a [i16],
    pub boxes: Boxes,
    pub ghost prepared: { Prepared job.now view turned.now boxes } by { Prim.hlevel facts },
}

impl<'a> PreparedJob<'a> {
    ghost use Rattle.std.specs.Prelude.{◌≡◌, ◌≤◌, ◌<◌};
    ghost use Rattle.model.specs.Candidate.{is_candidate};
    ghost use Rattle.model.specs.Format.{content};
    ghost use Rattle.model.specs.Grid.{set_words};
    ghost use Rattle.model.specs.Layout.{entry, is_entry, entry_extent};
    ghost use Rattle.job.specs.View.{Viewed};
    ghost use Rattle.shapes.specs.Turned.{TurnedOf};
    ghost use Rattle.candidates.specs.Conflicts.{placement_at};
    ghost use Rattle.candidates.specs.Prepared.{problem_in, Stands, conflict_in};

    // Of a job whose parts are turned, as `turn_all` leaves them.
    pub fn new(job: &'a [u8], view: View, turned: &'a [i16]) -> Self
        requires { Viewed job.now view × TurnedOf job.now turned.now }
        ensures of_job { result.job.now ≡ job.now }
        ensures of_view { result.view ≡ view }
    {
        let boxes = boxes_of(job, view, turned);
        PreparedJob {
            job,
            view,
            turned,
            boxes,
        }
    }

    // How many words a set of candidate numbers takes: four bits for each dot.
    pub fn set_words(&self) -> usize
        ensures words { result ≡ set_words (content self.now.job.now).sheet }
        ensures few { result ≤ 64 }
    {
        (self.view.columns * self.view.rows).div_ceil(16)
    }

    // Whether a kind may stand at a place. Any numbers may be given: of a kind past the last one there is none.
    pub fn is_placement(&self, kind: usize, place: Placed) -> bool
        ensures { result ≡ is_entry (problem_in self.now) (entry kind (placement_at place)) }
    {
        kind < self.view.kinds && placements::is_placement(&self.view, &self.boxes, kind, place)
    }

    // Whether a kind has a candidate of this number.
    pub fn is_candidate(&self, kind: usize, number: usize) -> bool
        requires { kind < self.now.view.kinds }
        ensures { result ≡ is_candidate (problem_in self.now) kind number }
    {
        placements::is_candidate(&self.view, &self.boxes, kind, number)
    }

    // The end of a kind at a place where it may stand: on the board.
    pub fn extent(&self, kind: usize, place: Placed) -> usize
        requires { Stands self.now kind place }
        ensures end { result ≡ entry_extent (problem_in self.now) (entry kind (placement_at place)) }
        ensures on_board { result ≤ 1000 }
    {
        placements::extent(&self.view, &self.boxes, kind, place)
    }

    // Whether two kinds, each at a place where it may stand, are in conflict.
    pub fn in_conflict(&self, kind: usize, place: Placed, other: usize, at: Placed) -> bool
        requires first { Stands self.now kind place }
        requires second { Stands self.now other at }
        ensures { result ≡ conflict_in self.now kind place other at }
    {
        let p = piece_of(self.job, &self.view, kind);
        let q = piece_of(self.job, &self.view, other);
        let gap = pair_gap(&self.view, kind, other);
        conflict_between(self.turned, self.view.step, p, place, q, at, gap)
    }
}
