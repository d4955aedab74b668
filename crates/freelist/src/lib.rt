// The free list in the bytes of a lent buffer: the soundness check, the place of a node, putting in and taking out.
// A list is a buffer, the offset of its first node and the number of its nodes, which the check gives. The policies
// share all of it: the order is a value. What the calls answer is the crate above.
// Each module stands beside the file of its name in `specs/`, which defines what it promises. In reading order:
// - segs: segments by their numbers;
// - nodes: the nodes of a list, one after another;
// - place: tests of the nodes, the place of the first that passes, and the sum of their sizes;
// - check: the check of one node;
// - split: the walk along checked nodes, and whether no two share a byte, pair by pair;
// - marks: whether no two share a byte, by marks;
// - sound: the soundness check of an arena, made of these;
// - link: a node put in or taken out.
#![tactic(auto)]

mod check;
mod link;
mod marks;
mod nodes;
mod place;
mod segs;
mod sound;
mod split;

pub use link::{insert, remove};
pub use nodes::Nodes;
pub use place::{Spot, any_above, any_meets, find_place, sum_sizes};
pub use sound::{arena_sound, survey};
