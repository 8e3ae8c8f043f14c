//! The meaning of a source, computed over its tree.

ghost use Rattle.std.specs.Prelude.{◌≡◌, [], ◌∷◌, ◌++◌, OnOk, IfOk, map, ℕ, List};
ghost use Rattle.vd_semantics.specs.World.{World as Outside};
ghost use Rattle.vd_base.specs.Names.{at_name};
ghost use Rattle.vd_semantics.specs.Wraps.{Scene, Watched, acting, block_acting, callee_calling, calling, callings_of, chain_watching, scene, seen};
ghost use Rattle.vd_semantics.specs.Wraps.{sequence_acting, source_wraps, turn_acting, watching, watching_of_segment, watchings};
ghost use Rattle.vd_semantics.specs.SourceMeaning.{State, prefix_word, prefixes_word, infix_word, shift_word, called, chain_evaluation, evaluations, evaluation, evaluation_of_segment, in_sequence, block_execution, turn_execution, execution, callee_of, callees_of, host_names, source_outputs};

use crate::held::Held;
use crate::hosts::place;
use crate::names::{bind, element, store, word, write};
use crate::stores::zeros;
use crate::world::World;
use crate::wraps::{Wrap, note};
use std::alloc::{AllocError, Global};
use vd_base::{Inputs, Items, Op, Outputs, Scope, Words, combine};
use vd_core::{Direction, Expr, Function, Host, Infix, Prefix, Segment, Sign, Source, Statement};

/// What a run of a source leaves: the outputs to each host, and the operators that wrapped, each as often as it did.
#[derive(Drop)]
pub struct SourceRun {
    pub outputs: Outputs,
    pub wraps: Items<Wrap>,
}

/// The outputs of a source to each host, and what wrapped on the way. The inputs of a host are followed by zeros.
///
/// This holds of every tree: a name that is not in sight stands for 0, a call of no earlier function gives 0, and a
/// host that is not declared hands in zeros and has no outputs.
pub fn watch_source(
    alloc: Global,
    source: &Source,
    inputs: &Inputs,
) -> Result<SourceRun, AllocError>
    ensures outputs { IfOk result (λ run. run.outputs ≡ source_outputs source.now inputs.now) }
    ensures wraps { IfOk result (λ run. run.wraps ≡ source_wraps source.now inputs.now) }
{
    let mut world = World::at_start(alloc, source.hosts.as_slice().len(), inputs)?;
    let declarations = Declarations {
        alloc,
        hosts: source.hosts.as_slice(),
        functions: source.functions.as_slice(),
    };
    let mut env = Scope::new(alloc);
    let mut wraps = Items::new(alloc);
    declarations.sequence(&mut env, &mut world, &mut wraps, source.main.as_slice())?;
    Ok(SourceRun {
        outputs: world.into_outputs(),
        wraps,
    })
}

/// The outputs of a source to each host, as [`watch_source`] has them.
pub fn clear_source(alloc: Global, source: &Source, inputs: &Inputs) -> Result<Outputs, AllocError>
    ensures { IfOk result (λ outputs. outputs ≡ source_outputs source.now inputs.now) }
{
    let run = watch_source(alloc, source, inputs)?;
    let SourceRun { outputs, wraps: _ } = run;
    Ok(outputs)
}

fn prefix(op: Prefix, x: u32) -> u32
    ensures { result ≡ prefix_word op x }
{
    match op {
        Prefix::Flip => combine(Op::Flip, x, 0, 0),
        Prefix::Not => combine(Op::Not, x, 0, 0),
    }
}

/// The operators before an operand, the nearest first.
fn prefixes(signs: &[Sign], operand: u32) -> u32
    ensures { result ≡ prefixes_word signs.now operand }
{
    let mut x = operand;
    for sign in signs {
        x = prefix(sign.prefix, x);
    }
    x
}

fn infix(op: Infix, x: u32, y: u32) -> u32
    ensures { result ≡ infix_word op x y }
{
    match op {
        Infix::Equal => combine(Op::Eq, x, y, 0),
        Infix::NotEqual => combine(Op::Ne, x, y, 0),
        Infix::Less => combine(Op::Lt, x, y, 0),
        Infix::LessEqual => combine(Op::Le, x, y, 0),
        Infix::Greater => combine(Op::Lt, y, x, 0),
        Infix::GreaterEqual => combine(Op::Le, y, x, 0),
        Infix::Or => combine(Op::Or, x, y, 0),
        Infix::Xor => combine(Op::Xor, x, y, 0),
        Infix::And => combine(Op::And, x, y, 0),
        Infix::Add => combine(Op::Add, x, y, 0),
        Infix::Sub => combine(Op::Sub, x, y, 0),
        Infix::Mul => combine(Op::Mul, x, y, 0),
        Infix::Div => combine(Op::Div, x, y, 0),
        Infix::Rem => combine(Op::Rem, x, y, 0),
    }
}

fn shift(direction: Direction, bits: u32, x: u32) -> u32
    ensures { result ≡ shift_word direction bits x }
{
    match direction {
        Direction::Left => combine(Op::Shl(bits), x, 0, 0),
        Direction::Right => combine(Op::Shr(bits), x, 0, 0),
    }
}

/// What a statement sees besides the names of values: the hosts, and the functions before it.
#[derive(Drop)]
struct Declarations<'a> {
    alloc: Global,
    hosts: &'a [Host],
    functions: &'a [Function],
}

impl<'a> Declarations<'a> {
    /// The value of an expression.
    #[cycle(run)]
    fn evaluate(
        &self,
        env: &Scope<Held>,
        world: &mut World,
        wraps: &mut Items<Wrap>,
        expr: &Expr,
    ) -> Result<u32, AllocError>
        ensures outcome { IfOk result (λ x. ◌≡◌ {A = ℕ × Outside} (x, world.new)
            (evaluation (host_names self.now.hosts.now) expr.now (callees_of (host_names self.now.hosts.now) self.now.functions.now)
            env.now world.old)) }
        ensures watched { IfOk result (λ x. ◌≡◌ {A = ℕ × Watched} (x, seen world.new wraps.new)
            (watching (host_names self.now.hosts.now) expr.now (callings_of (host_names self.now.hosts.now) self.now.functions.now) env.now
            (seen world.old wraps.old))) }
    {
        match expr {
            Expr::Number(number) => Ok(*number),
            Expr::Truth(truth) => Ok(u32::from(*truth)),
            Expr::Value(name) => Ok(word(env, name.name.as_slice())),
            Expr::Element(name, index) => {
                let index = self.evaluate(env, world, wraps, index)?;
                Ok(element(env, name.name.as_slice(), index))
            }
            Expr::Input(host) => Ok(world.input(place(self.hosts, host.name.as_slice()))),
            Expr::Call(name, arguments) => {
                let words = self.evaluate_all(env, world, wraps, arguments.as_slice())?;
                self.call(world, wraps, name.name.as_slice(), words.as_slice())
            }
            Expr::Min(_, x, y) => {
                let x = self.evaluate(env, world, wraps, x)?;
                let y = self.evaluate(env, world, wraps, y)?;
                Ok(combine(Op::Min, x, y, 0))
            }
            Expr::Max(_, x, y) => {
                let x = self.evaluate(env, world, wraps, x)?;
                let y = self.evaluate(env, world, wraps, y)?;
                Ok(combine(Op::Max, x, y, 0))
            }
            Expr::Mux(_, x, y, z) => {
                let x = self.evaluate(env, world, wraps, x)?;
                let y = self.evaluate(env, world, wraps, y)?;
                let z = self.evaluate(env, world, wraps, z)?;
                Ok(combine(Op::Mux, x, y, z))
            }
            Expr::Declassify(x, _) => self.evaluate(env, world, wraps, x),
            Expr::Endorse(x, _) => self.evaluate(env, world, wraps, x),
            Expr::Unary(x, signs) => {
                let x = self.evaluate(env, world, wraps, x)?;
                Ok(prefixes(signs.as_slice(), x))
            }
            Expr::Chain(first, segments) => {
                let x = self.evaluate(env, world, wraps, first)?;
                self.chain(env, world, wraps, x, segments.as_slice())
            }
            Expr::Brackets(x) => self.evaluate(env, world, wraps, x),
        }
    }

    /// The value of a chain, of which the first operand is known.
    #[cycle(run)]
    fn chain(
        &self,
        env: &Scope<Held>,
        world: &mut World,
        wraps: &mut Items<Wrap>,
        first: u32,
        segments: &[Segment],
    ) -> Result<u32, AllocError>
        ensures outcome { IfOk result (λ x. ◌≡◌ {A = ℕ × Outside} (x, world.new)
            (chain_evaluation (map (evaluation_of_segment (host_names self.now.hosts.now)) segments.now)
            (callees_of (host_names self.now.hosts.now) self.now.functions.now) env.now first world.old)) }
        ensures watched { IfOk result (λ x. ◌≡◌ {A = ℕ × Watched} (x, seen world.new wraps.new)
            (chain_watching (map (watching_of_segment (host_names self.now.hosts.now)) segments.now)
            (callings_of (host_names self.now.hosts.now) self.now.functions.now) env.now first (seen world.old wraps.old))) }
    {
        let mut x = first;
        for segment in segments {
            match segment {
                Segment::Infix(op, at, right) => {
                    let y = self.evaluate(env, world, wraps, right)?;
                    let word = infix(*op, x, y);
                    note(wraps, *op, *at, x, y, word)?;
                    x = word;
                }
                Segment::Shift(direction, _, bits) => {
                    x = shift(*direction, *bits, x);
                }
            }
        }
        Ok(x)
    }

    /// The values of expressions, from left to right.
    #[cycle(run)]
    fn evaluate_all(
        &self,
        env: &Scope<Held>,
        world: &mut World,
        wraps: &mut Items<Wrap>,
        exprs: &[Expr],
    ) -> Result<Words, AllocError>
        ensures outcome { IfOk result (λ xs. ◌≡◌ {A = List ℕ × Outside} (xs, world.new)
            (evaluations (map (evaluation (host_names self.now.hosts.now)) exprs.now)
            (callees_of (host_names self.now.hosts.now) self.now.functions.now) env.now world.old)) }
        ensures watched { IfOk result (λ xs. ◌≡◌ {A = List ℕ × Watched} (xs, seen world.new wraps.new)
            (watchings (map (watching (host_names self.now.hosts.now)) exprs.now)
            (callings_of (host_names self.now.hosts.now) self.now.functions.now) env.now (seen world.old wraps.old))) }
    {
        let mut words = Items::new(self.alloc);
        for expr in exprs {
            let word = self.evaluate(env, world, wraps, expr)?;
            words.push(word)?;
        }
        Ok(words)
    }

    /// What a call of the first function with this name gives.
    #[cycle(run)]
    fn call(
        &self,
        world: &mut World,
        wraps: &mut Items<Wrap>,
        name: &[u8],
        words: &[u32],
    ) -> Result<u32, AllocError>
        ensures outcome { IfOk result (λ x. ◌≡◌ {A = ℕ × Outside} (x, world.new)
            (called (at_name (callees_of (host_names self.now.hosts.now) self.now.functions.now) name.now) words.now world.old)) }
        ensures watched { IfOk result (λ x. ◌≡◌ {A = ℕ × Watched} (x, seen world.new wraps.new)
            (calling (at_name (callings_of (host_names self.now.hosts.now) self.now.functions.now) name.now) words.now
            (seen world.old wraps.old))) }
    {
        for k in 0..self.functions.len() {
            let function = &self.functions[k];
            if function.name.name.as_slice() == name {
                let earlier = Declarations {
                    alloc: self.alloc,
                    hosts: self.hosts,
                    functions: &self.functions[..k],
                };
                return earlier.enter(function, world, wraps, words);
            }
        }
        Ok(0)
    }

    /// What a function gives, which sees these functions.
    #[cycle(run)]
    fn enter(
        &self,
        function: &Function,
        world: &mut World,
        wraps: &mut Items<Wrap>,
        words: &[u32],
    ) -> Result<u32, AllocError>
        ensures outcome { IfOk result (λ x. ◌≡◌ {A = ℕ × Outside} (x, world.new)
            (callee_of (host_names self.now.hosts.now) function.now
            (callees_of (host_names self.now.hosts.now) self.now.functions.now) words.now world.old)) }
        ensures watched { IfOk result (λ x. ◌≡◌ {A = ℕ × Watched} (x, seen world.new wraps.new)
            (callee_calling (host_names self.now.hosts.now) function.now
            (callings_of (host_names self.now.hosts.now) self.now.functions.now) words.now (seen world.old wraps.old))) }
    {
        let mut env = bind(self.alloc, function.parameters.as_slice(), words)?;
        self.sequence(&mut env, world, wraps, function.body.as_slice())?;
        self.evaluate(&env, world, wraps, &function.gives)
    }

    /// Executes statements in order.
    #[cycle(run)]
    fn sequence(
        &self,
        env: &mut Scope<Held>,
        world: &mut World,
        wraps: &mut Items<Wrap>,
        statements: &[Statement],
    ) -> Result<(), AllocError>
        ensures outcome { OnOk result (◌≡◌ {A = State} (record { env = env.new; world = world.new })
            (in_sequence (map (execution (host_names self.now.hosts.now)) statements.now)
            (callees_of (host_names self.now.hosts.now) self.now.functions.now) (record { env = env.old; world = world.old }))) }
        ensures watched { OnOk result (◌≡◌ {A = Scene} (scene env.new (seen world.new wraps.new))
            (sequence_acting (map (acting (host_names self.now.hosts.now)) statements.now)
            (callings_of (host_names self.now.hosts.now) self.now.functions.now) (scene env.old (seen world.old wraps.old)))) }
    {
        for statement in statements {
            self.execute(env, world, wraps, statement)?;
        }
        Ok(())
    }

    /// Executes a statement.
    #[cycle(run)]
    fn execute(
        &self,
        env: &mut Scope<Held>,
        world: &mut World,
        wraps: &mut Items<Wrap>,
        statement: &Statement,
    ) -> Result<(), AllocError>
        ensures outcome { OnOk result (◌≡◌ {A = State} (record { env = env.new; world = world.new })
            (execution (host_names self.now.hosts.now) statement.now (callees_of (host_names self.now.hosts.now) self.now.functions.now)
            (record { env = env.old; world = world.old }))) }
        ensures watched { OnOk result (◌≡◌ {A = Scene} (scene env.new (seen world.new wraps.new))
            (acting (host_names self.now.hosts.now) statement.now (callings_of (host_names self.now.hosts.now) self.now.functions.now)
            (scene env.old (seen world.old wraps.old)))) }
    {
        match statement {
            Statement::Let { name, value, .. } => {
                let word = self.evaluate(env, world, wraps, value)?;
                env.add(name.name.as_slice(), Held::Bound(word))
            }
            Statement::Var { name, value, .. } => {
                let word = self.evaluate(env, world, wraps, value)?;
                env.add(name.name.as_slice(), Held::Cell(word))
            }
            Statement::Array { name, length, .. } => {
                let words = zeros(self.alloc, *length)?;
                env.add(name.name.as_slice(), Held::Elements(words))
            }
            Statement::Store { name, value } => {
                let word = self.evaluate(env, world, wraps, value)?;
                store(env, name.name.as_slice(), word);
                Ok(())
            }
            Statement::Put { name, index, value } => {
                let index = self.evaluate(env, world, wraps, index)?;
                let word = self.evaluate(env, world, wraps, value)?;
                write(env, name.name.as_slice(), index, word);
                Ok(())
            }
            Statement::Output { value, host, .. } => {
                let word = self.evaluate(env, world, wraps, value)?;
                world.output(place(self.hosts, host.name.as_slice()), word)
            }
            Statement::If {
                guard,
                then_block,
                else_block,
                ..
            } => {
                let word = self.evaluate(env, world, wraps, guard)?;
                if word == 0 {
                    self.block(env, world, wraps, else_block.as_slice())
                } else {
                    self.block(env, world, wraps, then_block.as_slice())
                }
            }
            Statement::For {
                name,
                count,
                body,
                ..
            } => {
                for number in 0..*count {
                    self.turn(
                        env,
                        world,
                        wraps,
                        name.name.as_slice(),
                        number,
                        body.as_slice(),
                    )?;
                }
                Ok(())
            }
        }
    }

    /// Executes a block, whose names end with it.
    #[cycle(run)]
    fn block(
        &self,
        env: &mut Scope<Held>,
        world: &mut World,
        wraps: &mut Items<Wrap>,
        body: &[Statement],
    ) -> Result<(), AllocError>
        ensures outcome { OnOk result (◌≡◌ {A = State} (record { env = env.new; world = world.new })
            (block_execution (map (execution (host_names self.now.hosts.now)) body.now)
            (callees_of (host_names self.now.hosts.now) self.now.functions.now) (record { env = env.old; world = world.old }))) }
        ensures watched { OnOk result (◌≡◌ {A = Scene} (scene env.new (seen world.new wraps.new))
            (block_acting (map (acting (host_names self.now.hosts.now)) body.now)
            (callings_of (host_names self.now.hosts.now) self.now.functions.now) (scene env.old (seen world.old wraps.old)))) }
    {
        let outer = env.len();
        self.sequence(env, world, wraps, body)?;
        env.truncate(outer);
        Ok(())
    }

    /// Executes one turn of a loop.
    #[cycle(run)]
    fn turn(
        &self,
        env: &mut Scope<Held>,
        world: &mut World,
        wraps: &mut Items<Wrap>,
        name: &[u8],
        number: u32,
        body: &[Statement],
    ) -> Result<(), AllocError>
        ensures outcome { OnOk result (◌≡◌ {A = State} (record { env = env.new; world = world.new })
            (turn_execution name.now (map (execution (host_names self.now.hosts.now)) body.now)
            (callees_of (host_names self.now.hosts.now) self.now.functions.now) number (record { env = env.old; world = world.old }))) }
        ensures watched { OnOk result (◌≡◌ {A = Scene} (scene env.new (seen world.new wraps.new))
            (turn_acting name.now (map (acting (host_names self.now.hosts.now)) body.now)
            (callings_of (host_names self.now.hosts.now) self.now.functions.now) number (scene env.old (seen world.old wraps.old)))) }
    {
        let outer = env.len();
        env.add(name, Held::Bound(number))?;
        self.sequence(env, world, wraps, body)?;
        env.truncate(outer);
        Ok(())
    }
}
