// The calls on a set of points. In the order of a call, and of reading: `paths`, `sight`, then `reads` or `writes`; of a path `held`.
#![tactic(auto)]

use schema::{Entry, Path};
use terms::EntryNo;

pub mod held;
pub mod paths;
pub mod reads;
pub mod sight;
pub mod writes;

// The set and the path that a call on points speaks of, and the path's masters.
#[derive(Clone, Copy)]
pub struct Located {
    pub number: EntryNo,
    pub entry: Entry,
    pub on: usize,
    pub path: Path,
    pub masters: Entry,
}
