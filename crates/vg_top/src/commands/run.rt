//! `run D I N`: the report of the run of an image for at most N steps.
ghost use Rattle.std.specs.Prelude.{◌≡◌, ◌≤◌, IfOk, IsTrue, length, map, option_map, []};
ghost use Rattle.vg_iss.specs.Kept.{is_memory_free};
ghost use Rattle.vg_image.specs.Spelling.{IsImage};
ghost use Rattle.vg_top.specs.Commands.Run as command;
ghost use Rattle.vg_top.specs.Tasks.{IsOfFiles, answer_with};
ghost use Rattle.vg_top.specs.Words.{word_bytes};

use crate::answer::Answer;
use crate::describing::{DESCRIPTION_LIMIT, description_refused};
use crate::description::description_for;
use crate::imaging::{IMAGE_LIMIT, image_refused};
use crate::needs::Needs;
use crate::next::Next;
use crate::number::{MOST_STEPS, number_up_to};
use crate::processor::Processor;
use crate::refusal::not_built;
use crate::reports::run::{push_run_report, run_status};
use crate::task::Task;
use std::alloc::{AllocError, Global};
use vg_image::{Image, read};
use vg_isa::Isa;
use vg_iss::{Iss, Stepped};

/// The words of the command.
#[derive(Clone, Copy, Drop)]
pub(crate) struct RunWords<'a> {
    description: &'a str,
    image: &'a str,
    bound: u64,
}

#[derive(Drop)]
pub(crate) enum Run<'a> {
    /// Asks for the description.
    Begun(RunWords<'a>),
    /// Asks for the image of the processor that the description is.
    Described(RunWords<'a>, Processor),
}

impl<'a> RunWords<'a> {
    /// The words of the command, where they are in its form.
    #[tactic(auto, unfolding(crate::specs::Commands::Run::form))]
    pub(crate) fn of(words: &'a [String]) -> Option<RunWords<'a>>
        ensures { option_map command.words_of result ≡ command.form (map word_bytes words.now) }
    {
        let [word, description, image, bound] = words else {
            return None;
        };
        if word.as_str() != "run" {
            return None;
        }
        let bound = number_up_to(MOST_STEPS, bound.as_str())?;
        Some(RunWords {
            description: description.as_str(),
            image: image.as_str(),
            bound,
        })
    }
}

/// The report of the run of an image for at most `bound` steps.
fn reported(alloc: Global, isa: &Isa, image: &Image, bound: u64) -> Result<Answer, AllocError>
    requires image { IsImage isa.now image.now }
    requires no_data { image.now.bytes ≡ [] }
    requires registers_only { IsTrue (is_memory_free isa.now) }
    ensures right { IfOk result (λ answer. command.Reports isa.now image.now bound (answer_with [] answer)) }
    ensures files { IfOk result (λ answer. IsOfFiles answer.status) }
{
    let mut iss = Iss::load(alloc, isa, image)?;
    let ran = iss.run(bound);
    if ran.end == Some(Stepped::OutOfMemory) {
        return Err(AllocError);
    }
    let ending = iss.ending();
    let mut text = Vec::new(alloc);
    push_run_report(&mut text, isa, image, ending, ran.done, &iss)?;
    Ok(Answer {
        status: run_status(ending),
        text,
    })
}

/// The line of the first data or symbol of an image that has some.
fn unbuilt_line(isa: &Isa, image: &Image) -> u64
    requires { IsImage isa.now image.now }
    ensures { result ≡ command.unbuilt_line image.now }
{
    let _ = isa.parts();
    image.code.len() as u64 + 7
}

/// Whether an image has neither data nor symbols.
fn is_bare(image: &Image) -> bool
    ensures { result ≡ command.is_bare image.now }
{
    image.bytes.is_empty() && image.symbols.is_empty()
}

/// The answer to the image. Images with data or symbols aren't run yet.
fn bare_answer(alloc: Global, isa: &Isa, image: &Image, bound: u64) -> Result<Answer, AllocError>
    requires image { IsImage isa.now image.now }
    requires registers_only { IsTrue (is_memory_free isa.now) }
    ensures right { IfOk result (λ answer. command.BareReports isa.now bound image.now (answer_with [] answer)) }
    ensures files { IfOk result (λ answer. IsOfFiles answer.status) }
{
    if is_bare(image) {
        return reported(alloc, isa, image, bound);
    }
    Ok(Answer::refused(not_built(alloc, (unbuilt_line(isa, image), 1))?))
}

/// The answer to the text of the image.
fn image_answer(alloc: Global, isa: &Isa, bound: u64, text: &[u8]) -> Result<Answer, AllocError>
    requires { IsTrue (is_memory_free isa.now) }
    ensures right { IfOk result (λ answer. command.ImageAnswers isa.now bound text.now (answer_with [] answer)) }
    ensures files { IfOk result (λ answer. IsOfFiles answer.status) }
{
    match read(alloc, isa, text) {
        Ok(image) => bare_answer(alloc, isa, &image, bound),
        Err(fault) => image_refused(alloc, fault),
    }
}

impl<'a> Task for Run<'a> {
    ghost use Rattle.vg_top.specs.Commands.Run.{name_at, limit_at, more_at, answers_at};

    ghost name = { name_at };

    ghost limit = { limit_at };

    ghost more = { more_at };

    ghost behind = { answers_at };

    fn file_name(&self) -> &str {
        match self {
            Run::Begun(words) => words.description,
            Run::Described(words, _) => words.image,
        }
    }

    fn file_limit(&self) -> usize {
        match self {
            Run::Begun(_) => DESCRIPTION_LIMIT,
            Run::Described(_, _) => IMAGE_LIMIT,
        }
    }

    fn read(self, alloc: Global, text: &[u8]) -> Result<Next<Self>, AllocError> {
        match self {
            Run::Begun(words) => match description_for(alloc, text, Needs::nothing_more()) {
                Ok(isa) => Ok(Next::Ask(Run::Described(words, Processor { isa }))),
                Err(fault) => Ok(Next::Answer(description_refused(alloc, text, fault)?)),
            },
            Run::Described(words, processor) => Ok(Next::Answer(image_answer(
                alloc,
                &processor.isa,
                words.bound,
                text,
            )?)),
        }
    }
}
