//! The script of one function alone.

ghost use Rattle.std.specs.Prelude.{◌≡◌, ◌++◌, map, drop, IfOk, OnOk};
ghost use Rattle.lone_functions.specs.Alone as spec;
ghost use Rattle.lone_functions.specs.Anew as copied;

use crate::anew::{Anew, START};
use crate::named::in_stmts;
use js_tree::{Expr, ExprForm, Func, Funcs, Script, Stmt, StmtForm};
use js_value::{Box, FuncNo, NoMemory, Seq};
use std::alloc::Global;

/// The functions from a number on.
fn from_number(all: &[Func], n: usize) -> &[Func]
    ensures { result.now ≡ drop n all.now }
{
    &all[n.min(all.len())..]
}

impl Anew {
    /// Puts copies of the first `wanted` functions, each with those that stand in it, behind the others.
    fn push_inner(&self, from: &[Func], wanted: u64, copies: &mut Funcs) -> Result<(), NoMemory>
        ensures { OnOk result (copies.new ≡ copies.old ++ map (copied.func self.now.first) (spec.with_inner wanted from.now)) }
    {
        let mut left = wanted;
        for f in from {
            if left == 0 {
                return Ok(());
            }
            copies.push(self.func(f)?)?;
            left = (left - 1).saturating_add(in_stmts(f.body.as_slice()));
        }
        Ok(())
    }

    /// Copies of the first function without its name, and of those that stand in it.
    fn funcs(&self, from: &[Func]) -> Result<Funcs, NoMemory>
        ensures { IfOk result (λ copies. copies ≡ spec.first_anew self.now.first from.now) }
    {
        let mut copies = Seq::new(self.alloc);
        let [first, behind @ ..] = from else {
            return Ok(copies);
        };
        copies.push(self.nameless(first)?)?;
        let wanted = in_stmts(first.body.as_slice());
        self.push_inner(behind, wanted, &mut copies)?;
        Ok(copies)
    }
}

/// The script whose one statement is a function of this script as an expression without a name. The functions inside it are
/// numbered anew in source order, and every place is 0. A number that no function has gives a script without functions.
#[tactic(auto, unfolding(crate::specs::Alone::alone))]
pub fn alone(alloc: Global, script: &Script, f: FuncNo) -> Result<Script, NoMemory>
    ensures { IfOk result (λ s. s ≡ spec.alone script.now f) }
{
    let anew = Anew { alloc, first: f.0 };
    let funcs = anew.funcs(from_number(script.funcs.as_slice(), f.0))?;
    let function = Expr {
        at: START,
        form: Box::new(alloc, ExprForm::Func(FuncNo(0)))?,
    };
    let statement = Stmt {
        at: START,
        form: Box::new(alloc, StmtForm::Eval(function))?,
    };
    let mut body = Seq::new(alloc);
    body.push(statement)?;
    Ok(Script {
        directive: false,
        body,
        funcs,
    })
}
