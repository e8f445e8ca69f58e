ghost use Rattle.std.specs.Prelude.{◌≡◌, ◌⊎◌, ◌<◌, ℕ, List, ◌∷◌, length, IfOk, IfErr, IsErrAnd, MatchOption, MatchResult};
ghost use Rattle.vg_tok.specs.declared.token.Token.{Token};
ghost use Rattle.vg_ast.specs.declared.desc.Desc.{Desc};
ghost use Rattle.vg_ast.specs.Description.{Reads};
ghost use Rattle.vg_ast.specs.Leaving.{LeavesAt, end_of};
ghost use Rattle.vg_parse.specs.declared.fault.ParseFault.{ParseFault};
ghost use Rattle.vg_parse.specs.declared.state.State.{State};
ghost use Rattle.vg_parse.specs.Run.{IsRead, IsNotBehind, StopsAt};

use crate::cutting::{Depths, front_piece};
use crate::fault::ParseFault;
use crate::state::State;
use crate::stepping::step;
use std::alloc::Global;
use vg_ast::Desc;
use vg_tok::Token;

/// The end of the last token, or 0 where there is none.
fn end_of(tokens: &[Token]) -> usize
    ensures { result ≡ end_of tokens.now }
{
    match tokens.last() {
        Some(token) => token.end,
        None => 0,
    }
}

/// The place of a piece: that of its first token.
fn place_of(piece: &[Token]) -> usize
    requires { 0 < length piece.now }
    ensures { (t : Token) (more : List Token) → piece.now ≡ t ∷ more → result ≡ t.start }
{
    piece[0].start
}

/// The description that is read; None within a part, or where nothing is read.
fn finished(state: State) -> Option<Desc>
    ensures { MatchOption result (IsNotBehind state) (λ desc. state ≡ State.Behind desc) }
{
    match state {
        State::Behind { desc } => Some(desc),
        _ => None,
    }
}

/// The tree that the pieces are read as, or the place where one of them can't stand.
fn read(alloc: Global, t: &[Token]) -> Result<Desc, ParseFault>
    ensures tree { IfOk result (λ d. IsRead t.now d) }
    ensures fault { IfErr result (λ f. (f ≡ ParseFault.OutOfMemory) ⊎ ((at : ℕ) × (f ≡ ParseFault.Syntax at) × StopsAt t.now at)) }
{
    let mut state = State::Start;
    let mut depths = Depths {
        braces: 0,
        parentheses: 0,
    };
    let mut rest = t;
    while !rest.is_empty() {
        let (len, behind) = front_piece(rest, depths);
        let (piece, after) = rest.split_at(len);
        match step(alloc, state, piece)? {
            Some(next) => state = next,
            None => {
                return Err(ParseFault::Syntax {
                    at: place_of(piece),
                });
            }
        }
        depths = behind;
        rest = after;
    }
    match finished(state) {
        Some(desc) => Ok(desc),
        None => Err(ParseFault::Syntax { at: end_of(t) }),
    }
}

/// The tree of a description's tokens, or the place where they leave the grammar.
pub fn parse(alloc: Global, t: &[Token]) -> Result<Desc, ParseFault>
    // What is answered is so.
    ensures tree { IfOk result (λ d. Reads t.now d) }
    ensures fault { IfErr result (λ f. (f ≡ ParseFault.OutOfMemory) ⊎ ((at : ℕ) × (f ≡ ParseFault.Syntax at) × LeavesAt t.now at)) }

    // Where the tokens have a tree or a place, it is answered, unless memory runs out.
    ensures accepts { (d : Desc) → Reads t.now d
        → MatchResult result (λ tree. tree ≡ d) (λ f. f ≡ ParseFault.OutOfMemory) }
    ensures refuses { (at : ℕ) → LeavesAt t.now at
        → IsErrAnd result (λ f. (f ≡ ParseFault.OutOfMemory) ⊎ (f ≡ ParseFault.Syntax at)) }
{
    read(alloc, t)
}
