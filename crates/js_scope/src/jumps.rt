//! Jumps that leave the code that they stand in: 12.7 to 12.9.

ghost use Rattle.std.specs.Prelude.{◌≡◌};
ghost use Rattle.js_tree.specs.Early as early;
ghost use Rattle.js_scope.specs.Jumps as spec;

use js_tree::{Case, Catch, Finally, ReadRefused, Stmt, StmtForm};
use js_value::Place;

/// The statements that leave the code around them.
#[derive(Clone, Copy, Debug, PartialEq, Eq)]
pub enum Jump {
    Return,
    Break,
    Continue,
}

/// The byte at which a fault stands.
fn place_in(fault: ReadRefused) -> u32
    ensures { result ≡ early.place_in fault }
{
    match fault {
        ReadRefused::Syntax(at) => at.0,
        ReadRefused::Unsupported(at, _) => at.0,
        ReadRefused::Nested(_) | ReadRefused::NoMemory => 0,
    }
}

/// The one of two faults that stands first, of two at one place the first.
pub fn lesser(least: Option<ReadRefused>, fault: ReadRefused) -> Option<ReadRefused>
    ensures { result ≡ early.lesser least fault }
{
    match least {
        None => Some(fault),
        Some(known) => {
            if place_in(fault) < place_in(known) {
                Some(fault)
            } else {
                Some(known)
            }
        }
    }
}

/// The least fault, where there is a jump at a place too.
fn at_place(least: Option<ReadRefused>, at: Place) -> Option<ReadRefused>
    ensures { result ≡ spec.at_place least at }
{
    lesser(least, ReadRefused::Syntax(at))
}

/// The least fault, where each jump of a kind that leaves these statements is one.
#[cycle(jumps)]
#[tactic(auto, using(crate::proofs::Leaving::leaves))]
pub fn in_stmts(all: &[Stmt], jump: Jump, least: Option<ReadRefused>) -> Option<ReadRefused>
    ensures { result ≡ spec.with_jumps least (spec.in_stmts jump all.now) }
{
    let mut least = least;
    for s in all {
        least = in_stmt(s, jump, least);
    }
    least
}

#[cycle(jumps)]
#[tactic(auto, using(crate::proofs::Leaving::leaves))]
fn in_cases(all: &[Case], jump: Jump, least: Option<ReadRefused>) -> Option<ReadRefused>
    ensures { result ≡ spec.with_jumps least (spec.in_cases jump all.now) }
{
    let mut least = least;
    for c in all {
        least = in_case(c, jump, least);
    }
    least
}

#[cycle(jumps)]
#[tactic(auto, using(crate::proofs::Leaving::leaves))]
fn in_case(c: &Case, jump: Jump, least: Option<ReadRefused>) -> Option<ReadRefused>
    ensures { result ≡ spec.with_jumps least (spec.in_case jump c.now) }
{
    in_stmts(c.body.as_slice(), jump, least)
}

#[cycle(jumps)]
#[tactic(auto, using(crate::proofs::Leaving::leaves))]
fn in_catch(c: &Catch, jump: Jump, least: Option<ReadRefused>) -> Option<ReadRefused>
    ensures { result ≡ spec.with_jumps least (spec.in_catch jump c.now) }
{
    in_stmts(c.body.as_slice(), jump, least)
}

#[cycle(jumps)]
#[tactic(auto, using(crate::proofs::Leaving::leaves))]
fn in_finally(f: &Finally, jump: Jump, least: Option<ReadRefused>) -> Option<ReadRefused>
    ensures { result ≡ spec.with_jumps least (spec.in_finally jump f.now) }
{
    in_stmts(f.body.as_slice(), jump, least)
}

#[cycle(jumps)]
#[tactic(auto, using(crate::proofs::Leaving::leaves))]
fn in_stmt(s: &Stmt, jump: Jump, least: Option<ReadRefused>) -> Option<ReadRefused>
    ensures { result ≡ spec.with_jumps least (spec.in_stmt jump s.now) }
{
    in_form(&s.form, s.at, jump, least)
}

/// `break` and `continue` don't leave a loop.
#[cycle(jumps)]
#[tactic(auto, using(crate::proofs::Leaving::leaves))]
fn in_form(
    form: &StmtForm,
    at: Place,
    jump: Jump,
    least: Option<ReadRefused>,
) -> Option<ReadRefused>
    ensures { result ≡ spec.with_jumps least (spec.in_form jump form.now at) }
{
    match form {
        StmtForm::Return(_) => match jump {
            Jump::Return => at_place(least, at),
            Jump::Break | Jump::Continue => least,
        },
        StmtForm::Break => match jump {
            Jump::Break => at_place(least, at),
            Jump::Return | Jump::Continue => least,
        },
        StmtForm::Continue => match jump {
            Jump::Continue => at_place(least, at),
            Jump::Return | Jump::Break => least,
        },
        StmtForm::Block(body) => in_stmts(body.as_slice(), jump, least),
        StmtForm::If(_, then, None) => in_stmt(then, jump, least),
        StmtForm::If(_, then, Some(other)) => in_stmt(other, jump, in_stmt(then, jump, least)),
        StmtForm::DoWhile(body, _) => match jump {
            Jump::Return => in_stmt(body, jump, least),
            Jump::Break | Jump::Continue => least,
        },
        StmtForm::While(_, body) => match jump {
            Jump::Return => in_stmt(body, jump, least),
            Jump::Break | Jump::Continue => least,
        },
        StmtForm::For(_, _, _, body) => match jump {
            Jump::Return => in_stmt(body, jump, least),
            Jump::Break | Jump::Continue => least,
        },
        StmtForm::ForIn(_, _, body) => match jump {
            Jump::Return => in_stmt(body, jump, least),
            Jump::Break | Jump::Continue => least,
        },
        StmtForm::Switch(_, cases) => match jump {
            Jump::Break => least,
            Jump::Return | Jump::Continue => in_cases(cases.as_slice(), jump, least),
        },
        StmtForm::Try(body, None, None) => in_stmts(body.as_slice(), jump, least),
        StmtForm::Try(body, Some(handler), None) => {
            in_catch(handler, jump, in_stmts(body.as_slice(), jump, least))
        }
        StmtForm::Try(body, None, Some(last)) => {
            in_finally(last, jump, in_stmts(body.as_slice(), jump, least))
        }
        StmtForm::Try(body, Some(handler), Some(last)) => in_finally(
            last,
            jump,
            in_catch(handler, jump, in_stmts(body.as_slice(), jump, least)),
        ),
        StmtForm::Var(_)
        | StmtForm::FuncDecl(_)
        | StmtForm::Eval(_)
        | StmtForm::Empty
        | StmtForm::Throw(_) => least,
    }
}
