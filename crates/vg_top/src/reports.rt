//! The reports of commands.

pub(crate) mod check;
pub(crate) mod run;
pub(crate) mod state;
