ghost use Rattle.std.specs.Prelude.{◌≡◌, OnOk, IfOk, [], ◌∷◌, ◌++◌, replicate};
ghost use Rattle.vd_semantics.specs.World.{first_word, later_words, world_at_start, input_word, after_input, after_output};

use std::alloc::{AllocError, Global};
use std::marker::Model;
use vd_base::{Inputs, Items, Outputs, Words};

/// The words of one host that are still to come.
#[derive(Drop)]
pub(crate) struct InputWords<'a> {
    left: &'a [u32],
}

impl<'a> Model for InputWords<'a> {
    ghost use Rattle.std.specs.Prelude.{List, ℕ};

    ghost Value = { List ℕ };

    ghost view = { λ words. words.left.now };
}

impl<'a> InputWords<'a> {
    fn new(left: &'a [u32]) -> InputWords<'a>
        ensures { result ≡ left.now }
    {
        InputWords { left }
    }

    /// The next word, or 0 once there is none.
    fn next(&mut self) -> u32
        ensures word { result ≡ first_word self.old }
        ensures rest { self.new ≡ later_words self.old }
    {
        match self.left.split_first() {
            None => 0,
            Some((first, rest)) => {
                self.left = rest;
                *first
            }
        }
    }
}

/// What the hosts have still to hand in, and the outputs to each of them.
#[derive(Drop)]
pub struct World<'a> {
    inputs: Vec<InputWords<'a>>,
    outputs: Vec<Words>,
}

impl<'a> Model for World<'a> {
    ghost use Rattle.vd_semantics.specs.World.{World as Words};

    ghost Value = { Words };

    ghost view = { λ world. record { inputs = world.inputs.items; outputs = world.outputs.items } };
}

impl<'a> World<'a> {
    /// There are no outputs yet.
    pub fn at_start(
        alloc: Global,
        hosts: usize,
        inputs: &'a Inputs,
    ) -> Result<World<'a>, AllocError>
        ensures { IfOk result (λ world. world ≡ world_at_start hosts inputs.now) }
    {
        let inputs = all_inputs(alloc, inputs.as_slice())?;
        let outputs = no_outputs(alloc, hosts)?;
        Ok(World { inputs, outputs })
    }

    /// Takes the next word of a host.
    pub fn input(&mut self, host: usize) -> u32
        ensures word { result ≡ input_word self.old host }
        ensures rest { self.new ≡ after_input self.old host }
    {
        if host < self.inputs.len() {
            self.inputs[host].next()
        } else {
            0
        }
    }

    /// Tells a host a word.
    pub fn output(&mut self, host: usize, word: u32) -> Result<(), AllocError>
        ensures { OnOk result (self.new ≡ after_output self.old host word) }
    {
        if host < self.outputs.len() {
            self.outputs[host].push(word)?;
        }
        Ok(())
    }

    /// The outputs to each host.
    pub(crate) fn into_outputs(self) -> Outputs
        ensures { result ≡ self.entry.outputs }
    {
        let World { inputs: _, outputs } = self;
        Items::from_vec(outputs)
    }
}

fn all_inputs<'a>(alloc: Global, inputs: &'a [Words]) -> Result<Vec<InputWords<'a>>, AllocError>
    ensures { IfOk result (λ all. all.items ≡ inputs.now) }
{
    let mut all = Vec::new(alloc);
    for words in inputs {
        all.push(InputWords::new(words.as_slice()))?;
    }
    Ok(all)
}

fn no_outputs(alloc: Global, hosts: usize) -> Result<Vec<Words>, AllocError>
    ensures { IfOk result (λ outputs. outputs.items ≡ replicate hosts []) }
{
    let mut outputs = Vec::new(alloc);
    for _ in 0..hosts {
        outputs.push(Items::new(alloc))?;
    }
    Ok(outputs)
}
