// Where masters live: the search for a key from its home, and what ADD-M and DEL-M store.
#![tactic(auto)]

use terms::RecordNo;

pub mod held;
pub mod walk;

// What the search for a key finds. Kept: it has three answers, which the definitions of the search name; `Masters::named` gives them as a
// Result.
#[derive(Clone, Copy, PartialEq, Eq)]
pub enum Found {
    At(RecordNo),
    Missing,
    Damaged,
}
