ghost use Rattle.std.specs.Prelude.{◌≡◌, ◌≤◌, ◌<◌, ◌^◌, ℕ, List, IfOk, length};
ghost use Rattle.vg_top.specs.Answers.{Held, Answer as TheAnswer};
ghost use Rattle.vg_top.specs.Tasks.{GoesOn, NamesLeft, AnswersFiles};

use crate::next::Next;
use std::alloc::{AllocError, Global};

/// A command that has read some files, and asks for one more.
pub(crate) trait Task: Drop {
    /// The name of the file that it asks for.
    ghost name: { Self → List ℕ };

    /// That file has at most so many bytes.
    ghost limit: { Self → ℕ };

    /// The names of the files that it may ask for behind it.
    ghost more: { Self → List (List ℕ) };

    /// The answers that are right to the bytes of the file.
    ghost behind: { Self → Held → List ℕ → TheAnswer → Type 0 };

    fn file_name(&self) -> &str
        ensures { result.now ≡ name self.now };

    fn file_limit(&self) -> usize
        ensures limit { result ≡ limit self.now }
        ensures below { result < 2 ^ 32 };

    /// Goes on with the bytes of the file.
    fn read(self, alloc: Global, text: &[u8]) -> Result<Next<Self>, AllocError>
        requires { length text.now ≤ limit self }
        ensures right { IfOk result (λ next. GoesOn name limit more behind (λ held. behind self held text.now) next) }
        ensures names { IfOk result (λ next. NamesLeft name limit more behind (more self) next) }
        ensures files { IfOk result (λ next. AnswersFiles next) };
}
