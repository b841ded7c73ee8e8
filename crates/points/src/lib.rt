// Points on their paths: neighbours, ends, and what the adds and DELVD store.
#![tactic(auto)]

use terms::RecordNo;

// Where a new record goes: last, or after or before the referenced record.
#[derive(Clone, Copy)]
pub enum Spot {
    Last,
    After(RecordNo),
    Before(RecordNo),
}
