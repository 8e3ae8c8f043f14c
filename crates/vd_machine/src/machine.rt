//! A host's machine: its code, where it stands, its registers and lists.

ghost use Rattle.std.specs.Prelude.{◌≡◌, true, length, IfOk, replicate};
ghost use Rattle.vd_execution.specs.Code.{Code};
ghost use Rattle.vd_execution.specs.Text.{IsCodeOf};
ghost use Rattle.vd_machine.specs.Wants.{wanted, IsFromHost};
ghost use Rattle.vd_machine.specs.Dids.{deed_of_did, deed_of_outgoing, seen, IsToHost, OutgoingFits};
ghost use Rattle.vd_execution.specs.Ranges.{IsInRange};
ghost use Rattle.vd_tape.specs.Validity.{IsDeal};
ghost use Rattle.vd_execution.specs.Step.{next, need, advanced, deed};
ghost use Rattle.vd_machine.specs.Machines.{held, cursors_of, IsMet, words_for, SamePeers};
ghost use Rattle.vd_machine.specs.Quietly.{IsQuiet, Quietly};
ghost use Rattle.vd_machine.specs.Kept.{state_of, at_start, stepped, CanHear, IsWithin, plain_need, plain_after};

use crate::did::{Did, Outgoing, outgoing_at, packet_of};
use crate::frames::{Frame, LoopFrame, choose, settle, turn};
use crate::lists::{Lists, Taken};
use crate::ops::{Op, Plain};
use crate::perform::perform;
use crate::quiet::{is_quiet_at, run_turns};
use crate::registers::write_each;
use crate::resolve::resolve;
use crate::want::{Want, want_at};
use crate::width::width;
use std::alloc::{AllocError, Global};
use std::marker::Model;
use vd_base::limits::OPEN_BLOCKS;
use vd_base::{Items, Words};
use vd_execution::Instr;
use vd_tape::Deal;

/// What a host still has to do, its registers, and what it takes items from.
#[derive(Drop)]
pub struct Machine {
    code: Vec<Op>,
    top: Frame,
    below: Vec<Frame>,
    registers: Vec<u32>,
    lists: Lists,
    taken: Taken,
}

impl Model for Machine {
    ghost use Rattle.vd_machine.specs.Kept.{Kept, IsSound, HasRoom, PacketFits};
    ghost use Rattle.std.specs.Prelude.{vec_capacity, ◌≤◌, All};

    ghost Value = { Kept };

    ghost view = { λ m. record { code = m.code.items; top = m.top; below = m.below.items; registers = m.registers.items; lists = m.lists; taken = m.taken } };

    ghost invariant = { λ m. IsSound (record {
      code = m.code.items;
      top = m.top;
      below = m.below.items;
      registers = m.registers.items;
      lists = m.lists;
      taken = m.taken;
    })
        × HasRoom 512 m.code.items m.top m.below.items × (512 ≤ vec_capacity m.below)
        × All (λ i. PacketFits m.lists.deal.hosts i) m.code.items };
}

/// A plain instruction, on what was heard.
fn execute(registers: &mut Vec<u32>, taken: &mut Taken, lists: &Lists, plain: &Plain, heard: &[u32])
    requires within { IsWithin (length registers.old.items) plain.now }
    requires same { SamePeers lists.now taken.old }
    requires met { IsMet lists.now (cursors_of taken.old) heard.now (plain_need (held registers.old.items) plain.now) }
    ensures value { held registers.new.items ≡ plain_after (held registers.old.items) lists.now taken.old heard.now plain.now }
    ensures len { length registers.new.items ≡ length registers.old.items }
    ensures cursors { cursors_of taken.new ≡ advanced (cursors_of taken.old) (plain_need (held registers.old.items) plain.now) }
    ensures same { SamePeers lists.now taken.new }
{
    match plain {
        Plain::Do(action) => perform(registers, taken, lists, action),
        Plain::Send(_, _) => {}
        Plain::Recv(_, into) => write_each(registers, into, heard),
    }
}

fn zeros(alloc: Global, count: usize) -> Result<Items<usize>, AllocError>
    ensures { IfOk result (λ list. list ≡ replicate count 0) }
{
    let list = vec![in alloc; 0usize; count]?;
    Ok(Items::from_vec(list))
}

fn nothing_taken(alloc: Global, hosts: usize) -> Result<Taken, AllocError>
    ensures cursors { IfOk result (λ taken. cursors_of taken ≡ (λ s. 0)) }
    ensures triples { IfOk result (λ taken. length taken.triples ≡ hosts) }
    ensures bits { IfOk result (λ taken. length taken.bits ≡ hosts) }
    ensures pairs { IfOk result (λ taken. length taken.pairs ≡ hosts) }
{
    let triples = zeros(alloc, hosts)?;
    let bits = zeros(alloc, hosts)?;
    let pairs = zeros(alloc, hosts)?;
    Ok(Taken {
        inputs: 0,
        own: 0,
        triples,
        bits,
        pairs,
    })
}

fn zero_words(alloc: Global, count: usize) -> Result<Vec<u32>, AllocError>
    ensures { IfOk result (λ list. list.items ≡ replicate count 0) }
{
    vec![in alloc; 0u32; count]
}

impl Machine {
    /// A machine at the start of a host's code: its registers hold 0, and nothing was taken from its inputs and its deal.
    /// It makes all the room that any step needs. The code is well nested and within the ranges of host code.
    pub fn load(
        alloc: Global,
        code: Items<Instr>,
        inputs: Words,
        deal: Deal,
    ) -> Result<Machine, AllocError>
        requires code { (c : Code) × IsCodeOf code c × IsInRange deal.hosts c }
        requires deal { IsDeal deal }
        ensures pending { (c : Code) → IsCodeOf code c → IfOk result (λ m. state_of m ≡ at_start c) }
        ensures inputs { IfOk result (λ m. m.lists.inputs ≡ inputs) }
        ensures deal { IfOk result (λ m. m.lists.deal ≡ deal) }
    {
        let registers = zero_words(alloc, width(code.as_slice()) as usize)?;
        let code = resolve(alloc, code)?;
        let taken = nothing_taken(alloc, deal.hosts as usize)?;
        let top = Frame::Run {
            from: 0,
            to: code.len(),
        };
        let below = Vec::with_capacity(alloc, OPEN_BLOCKS as usize)?;
        Ok(Machine {
            code,
            top,
            below,
            registers,
            lists: Lists { inputs, deal },
            taken,
        })
    }

    /// How many hosts there are.
    pub fn hosts(&self) -> u8
        ensures { result ≡ self.now.lists.deal.hosts }
    {
        self.lists.deal.hosts
    }

    /// What the next instruction needs.
    pub fn want(&self) -> Want
        ensures host { IsFromHost self.now.lists.deal.hosts result }
        ensures need { result ≡ wanted self.now }
    {
        match self.top {
            Frame::Loop { .. } => Want::Nothing,
            Frame::Run { from, to } => {
                if from == to {
                    return Want::Ended;
                }
                want_at(&self.registers, &self.taken, &self.lists, &self.code[from])
            }
        }
    }

    /// The words of its registers.
    pub fn registers(&self) -> &[u32]
        ensures { result.now ≡ self.now.registers }
    {
        &self.registers
    }

    /// What others will see of the next step, where the words of a packet still stand in registers.
    pub fn outgoing(&self) -> Outgoing<'_>
        ensures fits { OutgoingFits (length self.now.registers) self.now.lists.deal.hosts result }
        ensures deed { deed_of_outgoing (held self.now.registers) result ≡ seen (deed (state_of self.now)) }
    {
        match self.top {
            Frame::Loop { .. } => Outgoing::Quiet,
            Frame::Run { from, to } => {
                if from == to {
                    return Outgoing::Quiet;
                }
                outgoing_at(&self.registers, &self.code[from])
            }
        }
    }

    /// What others will see of the next step.
    fn deed(&self) -> Did
        ensures host { IsToHost self.now.lists.deal.hosts result }
        ensures deed { deed_of_did result ≡ seen (deed (state_of self.now)) }
    {
        match self.outgoing() {
            Outgoing::Quiet => Did::Quiet,
            Outgoing::Say(peer, from) => Did::Say(peer, packet_of(&self.registers, from)),
            Outgoing::Print(word) => Did::Print(word),
        }
    }

    /// One step, on the words that the next instruction waits for: those of a packet where it wants one, and else none.
    /// Answers what others see of it. It takes no memory.
    pub fn step(&mut self, heard: &[u32]) -> Did
        requires { CanHear self.old heard.now }
        ensures state { state_of self.new ≡ stepped self.old heard.now }
        ensures lists { self.new.lists ≡ self.old.lists }
        ensures did { deed_of_did result ≡ seen (deed (state_of self.old)) }
    {
        let did = self.deed();
        self.advance(heard);
        did
    }

    /// Steps on as long as it waits for nothing and nobody sees what it does.
    pub fn run(&mut self)
        ensures steps { Quietly self.old.lists (state_of self.old) (state_of self.new) }
        ensures stops { IsQuiet self.new.lists (state_of self.new) → ⊥ }
        ensures lists { self.new.lists ≡ self.old.lists }
    {
        loop {
            self.run_without_frames();
            if !self.is_quiet() {
                return;
            }
            self.advance(&[]);
        }
    }

    /// Whether the next step waits for nothing and nobody sees it.
    fn is_quiet(&self) -> bool
        ensures yes { result ≡ true → IsQuiet self.now.lists (state_of self.now) }
        ensures no { IsQuiet self.now.lists (state_of self.now) → result ≡ true }
    {
        match self.top {
            Frame::Loop { .. } => true,
            Frame::Run { from, to } => {
                if from == to {
                    return false;
                }
                is_quiet_at(&self.registers, &self.taken, &self.lists, &self.code[from])
            }
        }
    }

    /// Quiet steps, as far as no frame comes or goes.
    fn run_without_frames(&mut self)
        ensures steps { Quietly self.old.lists (state_of self.old) (state_of self.new) }
        ensures lists { self.new.lists ≡ self.old.lists }
    {
        run_turns(
            &mut self.registers,
            &mut self.taken,
            &self.lists,
            &self.code,
            &mut self.top,
            &mut self.below,
        );
        settle(&mut self.top, &mut self.below);
    }

    /// One step, on the words that the next instruction waits for, without an answer. It takes no memory.
    #[inline(always)]
    pub fn advance(&mut self, heard: &[u32])
        requires { CanHear self.old heard.now }
        ensures state { state_of self.new ≡ stepped self.old heard.now }
        ensures lists { self.new.lists ≡ self.old.lists }
    {
        match self.top {
            Frame::Loop {
                register,
                turn: at,
                turns,
                from,
                mid,
                to,
            } => {
                let frame = LoopFrame {
                    register,
                    turn: at,
                    turns,
                    from,
                    mid,
                    to,
                };
                turn(&mut self.registers, &mut self.top, &mut self.below, frame);
                settle(&mut self.top, &mut self.below);
            }
            Frame::Run { from, to } => match &self.code[from] {
                Op::Plain(plain) => {
                    execute(
                        &mut self.registers,
                        &mut self.taken,
                        &self.lists,
                        plain,
                        heard,
                    );
                    self.top = Frame::Run { from: from + 1, to };
                    settle(&mut self.top, &mut self.below);
                }
                Op::If {
                    guard,
                    first,
                    other,
                } => {
                    let is_zero = self.registers[*guard as usize] == 0;
                    choose(
                        &mut self.top,
                        &mut self.below,
                        is_zero,
                        from + 1,
                        *first,
                        *other,
                        to,
                    );
                    settle(&mut self.top, &mut self.below);
                }
                Op::For {
                    counter,
                    turns,
                    body,
                } => {
                    let mid = from + 1 + *body;
                    let frame = LoopFrame {
                        register: *counter,
                        turn: 0,
                        turns: *turns,
                        from: from + 1,
                        mid,
                        to,
                    };
                    turn(&mut self.registers, &mut self.top, &mut self.below, frame);
                    settle(&mut self.top, &mut self.below);
                }
            },
        }
    }
}
