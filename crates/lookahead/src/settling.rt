// The live sets of a level behind the first, one for each kind with copies left, and look-ahead: whether each has
// members for its copies.
ghost use Rattle.std.specs.Prelude.{◌≡◌, ◌+◌, ◌*◌, ◌≤◌, ◌<◌, leb, length, drop};
ghost use Rattle.words.specs.Sets.{count_members};
ghost use Rattle.model.specs.Content.{kind_count};
ghost use Rattle.model.specs.Format.{content};
ghost use Rattle.model.specs.Search.{copies_left};
ghost use Rattle.live_sets.specs.Known.{KnownOf, problem};
ghost use Rattle.stepping.specs.Levels.{pieces_from};
ghost use Rattle.stepping.specs.Slots.{SetPlace};
ghost use Rattle.lookahead.specs.Settled.{Placeable, Latest as LatestOf, Made, KindSettled, Settled};

use candidates::conflicts::placed_of;
use live_sets::narrowing::narrow;
use live_sets::placing::{Branch, Fixed, Latest};
use plans::lookup::{copies_left, set_start};
use runs::progress::Progress;
use words::sets;

// Whether the set of so many words, from word `at` on, has members for so many copies.
pub fn has_members(work: &[u8], at: usize, words: usize, copies: u8) -> bool
    requires { (words ≤ 64) × (at ≤ 6144) × ((at + words) * 8 ≤ length work.now) }
    ensures { result ≡ leb copies (count_members (words * 64) (drop (at * 8) work.now)) }
{
    sets::has_members(&work[at * 8..], words as u32, copies as u64)
}

// The set of the branch's level and of this kind, at word `to`: what is left of the set of the level before once the
// latest piece is placed. (The set's word beside what its kind is settled by: `settle_kind` needs it too.)
fn make_set(
    fixed: &Fixed,
    branch: &Branch,
    state: Progress,
    latest: &Latest,
    u: usize,
    work: &mut [u8],
    to: usize,
)
    requires known { KnownOf fixed.now }
    requires placeable { Placeable (problem fixed.now) branch.now.numbers branch.now.level state.bound state.span
        work.old }
    requires u_bound { (u < kind_count (content fixed.now.job.now).kinds) ×
        (0 < copies_left u (pieces_from (content fixed.now.job.now).kinds branch.now.level)) ×
        SetPlace (problem fixed.now) branch.now.level u to }
    requires latest { LatestOf (problem fixed.now) fixed.now.plan.rows branch.now.numbers branch.now.level
        latest.now.kind latest.now.number latest.now.place }
    ensures { Made (problem fixed.now) branch.now.numbers branch.now.level state.bound state.span u work.old work.new }
{
    let from = set_start(fixed.job, &fixed.plan, branch.level - 1, u);
    narrow(fixed, latest, u, work, from, to, state.span);
}

// The set of the branch's level and of this kind, if copies of the kind are left, and whether it has members for them.
fn settle_kind(
    fixed: &Fixed,
    branch: &Branch,
    state: Progress,
    latest: &Latest,
    u: usize,
    work: &mut [u8],
) -> bool
    requires known { KnownOf fixed.now }
    requires placeable { Placeable (problem fixed.now) branch.now.numbers branch.now.level state.bound state.span
        work.old }
    requires u_bound { u < kind_count (content fixed.now.job.now).kinds }
    requires latest { LatestOf (problem fixed.now) fixed.now.plan.rows branch.now.numbers branch.now.level
        latest.now.kind latest.now.number latest.now.place }
    ensures { KindSettled (problem fixed.now) branch.now.numbers branch.now.level state.bound state.span u work.old
        work.new result }
{
    let copies = copies_left(fixed.job, &fixed.plan, branch.level, u);
    if copies == 0 {
        return true;
    }
    let at = set_start(fixed.job, &fixed.plan, branch.level, u);
    make_set(fixed, branch, state, latest, u, work, at);
    has_members(work, at, state.span, copies)
}

// The sets of the branch's level, and look-ahead. It ends at the first kind with too few members.
pub fn settle(fixed: &Fixed, branch: &Branch, state: Progress, work: &mut [u8]) -> bool
    requires known { KnownOf fixed.now }
    requires placeable { Placeable (problem fixed.now) branch.now.numbers branch.now.level state.bound state.span
        work.old }
    ensures { Settled (problem fixed.now) branch.now.numbers branch.now.level state.bound state.span work.old
        work.new result }
{
    let before = branch.level - 1;
    let number = branch.numbers[before];
    let latest = Latest {
        kind: fixed.plan.kinds[before] as usize,
        number,
        place: placed_of(fixed.plan.rows, number),
    };
    for u in 0..fixed.plan.types {
        if !settle_kind(fixed, branch, state, &latest, u, work) {
            return false;
        }
    }
    true
}
