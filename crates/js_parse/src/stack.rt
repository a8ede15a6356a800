//! Operands and operators (11.1 to 11.11), by a stack of what waits for an operand.

ghost use Rattle.std.specs.Prelude.{◌≡◌, ◌<◌, ◌≤◌, ◌+◌, length, IfOk, IfSome};
ghost use Rattle.js_grammar.specs.Expressions as expressions;
ghost use Rattle.js_grammar.specs.Primary as primary;
ghost use Rattle.js_grammar.specs.Reading.{grammar};
ghost use Rattle.js_parse.specs.declared.frames.Frame.TheVariants as frame;
ghost use Rattle.js_parse.specs.declared.frames.Stage.TheVariants as stage;
ghost use Rattle.js_parse.specs.Frames as frames;
ghost use Rattle.js_parse.specs.Frames.{behind_first, field_on, keyed_on, operand_on, rank, read_on, work, Falls, IsNext, IsPart, IsReached, IsStage};
ghost use Rattle.token_reader.specs.Reader.{rest_of, IsAnswer};

use crate::frames::{First, Frame, Frames, Literal, Next, Open, Reached, Stage};
use crate::parser::Parser;
use js_tree::{Expr, ExprForm, Exprs, Field, Fields, Punctuator, ReadRefused};
use js_value::{Place, Seq};
use token_marks::Operator;

/// Where to go on behind some properties of an object literal.
fn stage_of(reached: Reached) -> Stage
    ensures { result ≡ frames.stage_of reached }
{
    match reached {
        Reached::Whole(x) => Stage::Operand(x),
        Reached::Fields(at, so_far) => Stage::Fields(at, so_far),
    }
}

impl<'a> Parser<'a> {
    // ---- object literals

    /// The end of an object literal.
    #[tactic(auto, unfolding(js_grammar::specs::Rest::next))]
    fn literal_end(&mut self, at: Place, all: Fields) -> Result<Expr, ReadRefused>
        ensures answer { IsAnswer (frames.literal_end at all) (rest_of self.old.reader) (rest_of self.new.reader) result }
        ensures left { IfOk result (λ _. length self.new.reader.rest.now < length self.old.reader.rest.now) }
        ensures within { length self.new.reader.rest.now ≤ length self.old.reader.rest.now }
    {
        self.reader.expect(Punctuator::RightBrace)?;
        self.reader.finish(at, ExprForm::ObjectLit(all))
    }

    /// What stands behind a property of an object literal.
    #[tactic(auto, unfolding(js_grammar::specs::Rest::next))]
    fn literal_behind(&mut self, at: Place, so_far: Fields) -> Result<Reached, ReadRefused>
        ensures answer { IsReached (frames.literal_behind at so_far) (rest_of self.old.reader) (rest_of self.new.reader) result }
        ensures left { IfOk result (λ _. length self.new.reader.rest.now < length self.old.reader.rest.now) }
        ensures within { length self.new.reader.rest.now ≤ length self.old.reader.rest.now }
    {
        if self.reader.take(Punctuator::Comma) {
            return Ok(Reached::Fields(at, so_far));
        }
        let x = self.literal_end(at, so_far)?;
        Ok(Reached::Whole(x))
    }

    /// The rest of a property's value, and what stands behind it.
    #[cycle(reading)]
    #[tactic(auto, using(crate::proofs::Steps::reached_by))]
    pub fn value(&mut self, literal: Literal, x: Expr) -> Result<Reached, ReadRefused>
        ensures answer { IsReached (frames.value literal x) (rest_of self.old.reader) (rest_of self.new.reader) result }
        ensures left { IfOk result (λ _. length self.new.reader.rest.now < length self.old.reader.rest.now) }
        ensures within { length self.new.reader.rest.now ≤ length self.old.reader.rest.now }
    {
        let Literal {
            at,
            mut so_far,
            key_at,
            key,
        } = literal;
        let y = self.chosen(true, x)?;
        let v = self.perhaps_assigned(true, y)?;
        so_far.push(Field::Value(key_at, key, v))?;
        self.literal_behind(at, so_far)
    }

    /// The key of a property, whose value comes next.
    #[tactic(auto, using(crate::proofs::Steps::key_begins))]
    fn key(&mut self, frames: &mut Frames, at: Place, so_far: Fields) -> Result<Stage, ReadRefused>
        ensures answer { IsStage (keyed_on at so_far frames.old) (rest_of self.old.reader) frames.new (rest_of self.new.reader) result }
        ensures less { IfOk result (λ st. work self.new.reader.rest.now frames.new + rank st < work self.old.reader.rest.now frames.old) }
        ensures within { length self.new.reader.rest.now ≤ length self.old.reader.rest.now }
    {
        let key_at = self.reader.here();
        let key = self.reader.expect_property_name()?;
        self.reader.expect(Punctuator::Colon)?;
        frames.push(Frame::Value(Literal {
            at,
            so_far,
            key_at,
            key,
        }))?;
        Ok(Stage::Begin)
    }

    /// A getter or a setter (11.1.5), where one comes next.
    #[cycle(reading)]
    #[tactic(auto, unfolding(js_grammar::specs::Primary::property))]
    pub fn accessor_field(&mut self) -> Result<Option<Field>, ReadRefused>
        ensures answer { IsPart (primary.property grammar) (primary.valued grammar) (rest_of self.old.reader) (rest_of self.new.reader) result }
        ensures left { IfOk result (λ found. IfSome found (λ _. length self.new.reader.rest.now < length self.old.reader.rest.now)) }
        ensures within { length self.new.reader.rest.now ≤ length self.old.reader.rest.now }
    {
        let named = self.reader.sees_property_second();
        if self.reader.sees_accessor(b"get") && named {
            let field = self.getter()?;
            return Ok(Some(field));
        }
        if self.reader.sees_accessor(b"set") && named {
            let field = self.setter()?;
            return Ok(Some(field));
        }
        Ok(None)
    }

    /// A property of an object literal (11.1.5).
    #[cycle(reading)]
    #[tactic(auto, using(crate::proofs::Steps::reached_on, crate::proofs::Steps::stage_by))]
    pub fn field(
        &mut self,
        frames: &mut Frames,
        at: Place,
        mut so_far: Fields,
    ) -> Result<Stage, ReadRefused>
        ensures answer { IsStage (field_on at so_far frames.old) (rest_of self.old.reader) frames.new (rest_of self.new.reader) result }
        ensures less { IfOk result (λ st. work self.new.reader.rest.now frames.new + rank st < work self.old.reader.rest.now frames.old) }
        ensures within { length self.new.reader.rest.now ≤ length self.old.reader.rest.now }
    {
        match self.accessor_field()? {
            Some(field) => {
                so_far.push(field)?;
                let reached = self.literal_behind(at, so_far)?;
                Ok(stage_of(reached))
            }
            None => self.key(frames, at, so_far),
        }
    }

    /// A property of an object literal, or its end (11.1.5).
    #[cycle(reading)]
    pub fn fields(
        &mut self,
        frames: &mut Frames,
        at: Place,
        so_far: Fields,
    ) -> Result<Stage, ReadRefused>
        ensures answer { IsStage (read_on (stage.Fields at so_far) frames.old) (rest_of self.old.reader) frames.new (rest_of self.new.reader) result }
        ensures less { IfOk result (λ st. work self.new.reader.rest.now frames.new + rank st < work self.old.reader.rest.now frames.old) }
        ensures within { length self.new.reader.rest.now ≤ length self.old.reader.rest.now }
    {
        if self.reader.take(Punctuator::RightBrace) {
            let x = self.reader.finish(at, ExprForm::ObjectLit(so_far))?;
            return Ok(Stage::Operand(x));
        }
        self.field(frames, at, so_far)
    }

    // ---- operands

    /// The arguments of `new`, where there are some (11.2.2).
    #[cycle(reading)]
    #[tactic(auto, unfolding(js_grammar::specs::Rest::next))]
    pub fn perhaps_arguments(&mut self) -> Result<Exprs, ReadRefused>
        ensures answer { IsAnswer frames.perhaps_arguments (rest_of self.old.reader) (rest_of self.new.reader) result }
        ensures within { length self.new.reader.rest.now ≤ length self.old.reader.rest.now }
    {
        if self.reader.take(Punctuator::LeftParenthesis) {
            return self.arguments_behind();
        }
        Ok(Seq::new(self.reader.alloc))
    }

    /// `new` behind its callee (11.2.2).
    #[cycle(reading)]
    pub fn constructed(&mut self, at: Place, callee: Expr) -> Result<Expr, ReadRefused>
        ensures answer { IsAnswer (frames.constructed at callee) (rest_of self.old.reader) (rest_of self.new.reader) result }
        ensures within { length self.new.reader.rest.now ≤ length self.old.reader.rest.now }
    {
        let args = self.perhaps_arguments()?;
        self.reader.finish(at, ExprForm::New(callee, args))
    }

    /// An operand, with its prefix operators where they may stand.
    #[cycle(reading)]
    #[tactic(auto, using(crate::proofs::Steps::begins_operand, crate::proofs::Steps::stage_by))]
    pub fn begin_unary(&mut self, frames: &mut Frames) -> Result<Stage, ReadRefused>
        ensures answer { IsStage (read_on stage.Begin frames.old) (rest_of self.old.reader) frames.new (rest_of self.new.reader) result }
        ensures less { IfOk result (λ st. work self.new.reader.rest.now frames.new + rank st < work self.old.reader.rest.now frames.old) }
        ensures left { IfOk result (λ _. length self.new.reader.rest.now < length self.old.reader.rest.now) }
        ensures within { length self.new.reader.rest.now ≤ length self.old.reader.rest.now }
    {
        if frames.level().is_some() {
            if let Some(x) = self.prefixed()? {
                return Ok(Stage::Unary(x));
            }
        }
        self.begin_operand(frames)
    }

    /// An operand without what stands behind it.
    #[cycle(reading)]
    #[tactic(auto, using(crate::proofs::Steps::begins_new, crate::proofs::Steps::begins_object))]
    pub fn begin_operand(&mut self, frames: &mut Frames) -> Result<Stage, ReadRefused>
        ensures answer { IsStage (operand_on frames.old) (rest_of self.old.reader) frames.new (rest_of self.new.reader) result }
        ensures less { IfOk result (λ st. work self.new.reader.rest.now frames.new + rank st < work self.old.reader.rest.now frames.old) }
        ensures left { IfOk result (λ _. length self.new.reader.rest.now < length self.old.reader.rest.now) }
        ensures within { length self.new.reader.rest.now ≤ length self.old.reader.rest.now }
    {
        match self.operand()? {
            First::Whole(x) => Ok(Stage::Operand(x)),
            First::New(at) => {
                frames.push(Frame::Callee(at))?;
                Ok(Stage::Begin)
            }
            First::Object(at) => Ok(Stage::Fields(at, Seq::new(self.reader.alloc))),
        }
    }

    /// What stands behind an operand: members, and the arguments of a `new` that waits, or calls and a postfix operator.
    #[cycle(reading)]
    pub fn behind_operand(&mut self, frames: &mut Frames, x: Expr) -> Result<Stage, ReadRefused>
        ensures answer { IsStage (read_on (stage.Operand x) frames.old) (rest_of self.old.reader) frames.new (rest_of self.new.reader) result }
        ensures less { IfOk result (λ st. work self.new.reader.rest.now frames.new + rank st < work self.old.reader.rest.now frames.old + 1) }
        ensures within { length self.new.reader.rest.now ≤ length self.old.reader.rest.now }
    {
        match frames.callee() {
            Some(at) => {
                frames.pop();
                let callee = self.more_members(false, x)?;
                let whole = self.constructed(at, callee)?;
                Ok(Stage::Operand(whole))
            }
            None => {
                let whole = self.more_members(true, x)?;
                let stepped = self.reader.stepped(whole)?;
                Ok(Stage::Unary(stepped))
            }
        }
    }

    // ---- operators with two operands

    /// An operator with its two operands.
    fn join(&self, pending: Open, right: Expr) -> Result<Expr, ReadRefused>
        ensures { IsAnswer (frames.join pending right) (rest_of self.now.reader) (rest_of self.now.reader) result }
    {
        let Open { left, op, .. } = pending;
        let at = left.at;
        let form = match op {
            Operator::Binary(op) => ExprForm::Binary(op, left, right),
            Operator::Logic(op) => ExprForm::Logic(op, left, right),
        };
        self.reader.finish(at, form)
    }

    /// What waits, where no operator comes next that it waits for.
    #[cycle(reading)]
    pub fn behind_operators(&mut self, frames: &mut Frames, x: Expr) -> Result<Next, ReadRefused>
        ensures answer { IsNext (behind_first frames.old x) (rest_of self.old.reader) frames.new (rest_of self.new.reader) result }
        ensures less { IfOk result (λ next. Falls (work self.new.reader.rest.now frames.new) (work self.old.reader.rest.now frames.old) next) }
        ensures within { length self.new.reader.rest.now ≤ length self.old.reader.rest.now }
    {
        match frames.pop() {
            None => Ok(Next::Done(x)),
            Some(Frame::Right(open)) => {
                let both = self.join(open, x)?;
                Ok(Next::Stage(Stage::Unary(both)))
            }
            Some(Frame::Value(literal)) => {
                let reached = self.value(literal, x)?;
                Ok(Next::Stage(stage_of(reached)))
            }
            Some(Frame::Postfix | Frame::Operation(_) | Frame::Callee(_)) => {
                Ok(Next::Stage(Stage::Unary(x)))
            }
        }
    }

    /// An operator that what waits lets pass, or what waits.
    #[cycle(reading)]
    pub fn behind_unary(&mut self, frames: &mut Frames, x: Expr) -> Result<Next, ReadRefused>
        ensures answer { IsNext (read_on (stage.Unary x) frames.old) (rest_of self.old.reader) frames.new (rest_of self.new.reader) result }
        ensures less { IfOk result (λ next. Falls (work self.new.reader.rest.now frames.new) (work self.old.reader.rest.now frames.old) next) }
        ensures within { length self.new.reader.rest.now ≤ length self.old.reader.rest.now }
    {
        let Some((least, allows_in)) = frames.level() else {
            return self.behind_operators(frames, x);
        };
        let Some((op, level)) = self.reader.next_operator(least, allows_in) else {
            return self.behind_operators(frames, x);
        };
        self.reader.pass();
        frames.push(Frame::Right(Open {
            left: x,
            op,
            level,
            allows_in,
        }))?;
        Ok(Next::Stage(Stage::Begin))
    }

    // ---- the stack

    /// One step.
    #[cycle(reading)]
    pub fn turn(&mut self, frames: &mut Frames, stage: Stage) -> Result<Next, ReadRefused>
        ensures answer { IsNext (read_on stage frames.old) (rest_of self.old.reader) frames.new (rest_of self.new.reader) result }
        ensures less { IfOk result (λ next. Falls (work self.new.reader.rest.now frames.new) (work self.old.reader.rest.now frames.old + rank stage) next) }
        ensures within { length self.new.reader.rest.now ≤ length self.old.reader.rest.now }
    {
        match stage {
            Stage::Begin => {
                let stage = self.begin_unary(frames)?;
                Ok(Next::Stage(stage))
            }
            Stage::Fields(at, so_far) => {
                let stage = self.fields(frames, at, so_far)?;
                Ok(Next::Stage(stage))
            }
            Stage::Operand(x) => {
                let stage = self.behind_operand(frames, x)?;
                Ok(Next::Stage(stage))
            }
            Stage::Unary(x) => self.behind_unary(frames, x),
        }
    }

    /// An operand, and all that waits for it.
    #[cycle(reading)]
    pub fn run(&mut self, mut frames: Frames) -> Result<Expr, ReadRefused>
        ensures answer { IsAnswer (read_on stage.Begin frames) (rest_of self.old.reader) (rest_of self.new.reader) result }
        ensures left { IfOk result (λ _. length self.new.reader.rest.now < length self.old.reader.rest.now) }
        ensures within { length self.new.reader.rest.now ≤ length self.old.reader.rest.now }
    {
        let mut stage = self.begin_unary(&mut frames)?;
        'turn: loop {
            match self.turn(&mut frames, stage)? {
                Next::Stage(next) => stage = next,
                Next::Done(x) => return Ok(x),
            }
        }
    }

    /// Operands with operators that group to the left (11.5 to 11.11).
    #[cycle(reading)]
    #[tactic(auto, using(crate::proofs::Steps::operation_is, crate::proofs::Steps::answer_by))]
    pub fn operation(&mut self, allows_in: bool) -> Result<Expr, ReadRefused>
        ensures answer { IsAnswer (expressions.logical_or grammar allows_in) (rest_of self.old.reader) (rest_of self.new.reader) result }
        ensures left { IfOk result (λ _. length self.new.reader.rest.now < length self.old.reader.rest.now) }
        ensures within { length self.new.reader.rest.now ≤ length self.old.reader.rest.now }
    {
        let mut frames = Frames::new(self.reader.alloc);
        frames.push(Frame::Operation(allows_in))?;
        self.run(frames)
    }

    /// An operand with or without a postfix operator (11.3).
    #[cycle(reading)]
    pub fn postfix(&mut self) -> Result<Expr, ReadRefused>
        ensures answer { IsAnswer (expressions.postfix grammar) (rest_of self.old.reader) (rest_of self.new.reader) result }
        ensures left { IfOk result (λ _. length self.new.reader.rest.now < length self.old.reader.rest.now) }
        ensures within { length self.new.reader.rest.now ≤ length self.old.reader.rest.now }
    {
        let mut frames = Frames::new(self.reader.alloc);
        frames.push(Frame::Postfix)?;
        self.run(frames)
    }
}
