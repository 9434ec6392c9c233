//! What comes of a case that has a name.
use crate::connection::served;
use crate::lives::lived;
use map_types::Refusal;
use run_cases::{Names, Plays};
use std::alloc::Global;
use std::sync::Wait;

/// The cases of the files whose lines have a name, an input, and what is to come.
#[derive(Drop)]
pub(crate) struct NamedCases<'a, R> {
    pub rt: &'a R,
}

impl<R: AllocGlobal + Print + Wait> Plays for NamedCases<'_, R> {
    fn play(
        &self,
        _alloc: Global,
        kind: &str,
        names: &Names,
        input: &str,
    ) -> Result<String, Refusal> {
        if kind == "keeper" {
            return lived(self.rt, input);
        }
        served(self.rt, names, input)
    }
}
