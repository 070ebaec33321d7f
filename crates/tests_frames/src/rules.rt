//! Permission and selection.

mod permission;
mod selection;
