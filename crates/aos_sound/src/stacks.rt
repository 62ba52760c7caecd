// Stacks of kinds that share what lies below their tops. Each has one number, so that two are compared in one step.

ghost use Rattle.std.specs.Prelude.{◌≡◌, ◌<◌, ◌↔◌, ℕ, zero, suc, List, [], ◌∷◌, length, Some, None, IfOk, IsTrue, MatchOption};
ghost use Rattle.aos_code.specs.declared.instr.Kind.{Kind};
ghost use Rattle.aos_sound.specs.Sound.{Kinds};
ghost use Rattle.aos_sound.specs.Stacks.{stack_at, stacks_of, Extends, IsTrie, above, with_above};

use aos_base::NoMemory;
use aos_code::Kind;
use std::alloc::Global;
use std::marker::Model;

/// A stack: its top, the number of what lies below it, and how many operands it has.
#[derive(Clone, Copy)]
pub struct Node {
    pub top: Kind,
    pub below: u32,
    pub height: u32,
}

/// The numbers of the stacks with one more operand on top, by its kind; 0 for none.
#[derive(Clone, Copy)]
pub struct Over {
    pub n: u32,
    pub r: u32,
    pub c: u32,
    pub a: u32,
}

fn above_of(over: Over, top: Kind) -> u32
    ensures { result ≡ above over top }
{
    match top {
        Kind::N => over.n,
        Kind::R => over.r,
        Kind::C => over.c,
        Kind::A => over.a,
    }
}

fn with_one_above(over: Over, top: Kind, id: u32) -> Over
    ensures { result ≡ with_above over top id }
{
    match top {
        Kind::N => Over { n: id, ..over },
        Kind::R => Over { r: id, ..over },
        Kind::C => Over { c: id, ..over },
        Kind::A => Over { a: id, ..over },
    }
}

/// Stacks that differ, each with its number. Number 0 is the empty one.
#[derive(Drop)]
pub struct Stacks {
    nodes: Vec<Node>,
    overs: Vec<Over>,
}

impl Model for Stacks {
    ghost Value = { List (List Kind) };

    ghost view = { λ s. stacks_of s.nodes.items };

    ghost invariant = { λ s. IsTrie s.nodes.items s.overs.items };
}

impl Stacks {
    /// The empty stack alone.
    pub fn new(alloc: Global) -> Result<Self, NoMemory>
        ensures { IfOk result (λ s. s ≡ [] ∷ []) }
    {
        let mut overs = Vec::new(alloc);
        overs.reserve(1)?;
        overs.push_reserved(Over {
            n: 0,
            r: 0,
            c: 0,
            a: 0,
        });
        Ok(Stacks {
            nodes: Vec::new(alloc),
            overs,
        })
    }

    /// The top of a stack, and the number of what lies below it.
    pub fn split(&self, id: u32) -> Option<(Kind, u32)>
        requires { id < length self.now }
        ensures { MatchOption result (stack_at self.now id ≡ [])
            (λ p. (p.1 < length self.now) × (stack_at self.now id ≡ p.0 ∷ stack_at self.now p.1)) }
    {
        if id == 0 {
            None
        } else {
            let node = self.nodes[id as usize - 1];
            Some((node.top, node.below))
        }
    }

    /// How many operands a stack has.
    pub fn height(&self, id: u32) -> u32
        requires { id < length self.now }
        ensures { result ≡ length (stack_at self.now id) }
    {
        if id == 0 {
            0
        } else {
            self.nodes[id as usize - 1].height
        }
    }

    /// Whether two stacks have the same kinds.
    pub fn same(&self, a: u32, b: u32) -> bool
        requires { (a < length self.now) × (b < length self.now) }
        ensures { IsTrue result ↔ (stack_at self.now a ≡ stack_at self.now b) }
    {
        // for the proof alone: what holds of the fields is known where one is looked at
        let _ = &self.nodes;
        a == b
    }

    /// The stack with one more operand on top.
    pub fn on_top(&mut self, top: Kind, below: u32) -> Result<u32, NoMemory>
        requires { below < length self.old }
        ensures { IfOk result (λ id. (id < length self.new)
            × (stack_at self.new id ≡ top ∷ stack_at self.old below)
            × Extends self.old self.new) }
    {
        let over = self.overs[below as usize];
        let id = above_of(over, top);
        if id > 0 {
            return Ok(id);
        }
        let new = self.overs.len();
        if new >= 0xFFFF_FFFF {
            return Err(NoMemory);
        }
        let id = new as u32;
        let height = self.height(below);
        self.nodes.reserve(1)?;
        self.overs.reserve(1)?;
        self.nodes.push_reserved(Node {
            top,
            below,
            height: height + 1,
        });
        self.overs.push_reserved(Over {
            n: 0,
            r: 0,
            c: 0,
            a: 0,
        });
        self.overs[below as usize] = with_one_above(over, top, id);
        Ok(id)
    }
}
