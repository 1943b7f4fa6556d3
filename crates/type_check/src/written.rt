//! What a whole module writes.
ghost use Rattle.std.specs.Prelude.{◌≡◌, map};
ghost use Rattle.ir_module.specs.Steps.{PhiAt, InstAt, steps_of_block};
ghost use Rattle.type_check.specs.code.Operands as spec;
ghost use Rattle.type_check.specs.Typing.{term_wants};

use crate::scene::Scene;
use crate::seen::Seen;
use crate::signatures::Signature;
use ir_module::{Block, Function, Inst, Module, Phi};

impl<'a> Scene<'a> {
    fn phis(&self, mut phis: &[Phi]) -> Seen
        requires { spec.IsTold self.now }
        ensures { result ≡ spec.collected (λ p. spec.seen_at self.now.tree.now self.now.function.now (PhiAt p)) phis.entry.now }
    {
        let mut seen = Seen::nothing();
        while let [phi, rest @ ..] = phis {
            seen = seen.and(self.phi(phi));
            phis = rest;
        }
        seen
    }

    fn insts(&self, mut insts: &[Inst]) -> Seen
        requires { spec.IsTold self.now }
        ensures { result ≡ spec.collected (λ i. spec.seen_at self.now.tree.now self.now.function.now (InstAt i)) insts.entry.now }
    {
        let mut seen = Seen::nothing();
        while let [inst, rest @ ..] = insts {
            seen = seen.and(self.inst(&inst.what));
            insts = rest;
        }
        seen
    }

    fn behind_phis(&self, block: &Block) -> Seen
        requires { spec.IsTold self.now }
        ensures { result ≡ spec.both (spec.collected (λ i. spec.seen_at self.now.tree.now self.now.function.now (InstAt i)) block.now.insts) (spec.seen self.now.tree.now self.now.function.now (term_wants block.now.term)) }
    {
        self.insts(block.insts.as_slice())
            .and(self.term(&block.term))
    }

    fn block(&self, block: &Block) -> Seen
        requires { spec.IsTold self.now }
        ensures { result ≡ spec.collected (spec.seen_at self.now.tree.now self.now.function.now) (steps_of_block block.now) }
    {
        self.phis(block.phis.as_slice())
            .and(self.behind_phis(block))
    }

    fn blocks(&self, mut blocks: &[Block]) -> Seen
        requires { spec.IsTold self.now }
        ensures { result ≡ spec.collected (λ b. spec.collected (spec.seen_at self.now.tree.now self.now.function.now) (steps_of_block b)) blocks.entry.now }
    {
        let mut seen = Seen::nothing();
        while let [block, rest @ ..] = blocks {
            seen = seen.and(self.block(block));
            blocks = rest;
        }
        seen
    }

    /// What is seen of the operands of the whole function.
    #[tactic(auto, using(crate::proofs::SeenLemmas::collected_flat))]
    fn all(&self) -> Seen
        requires { spec.IsTold self.now }
        ensures { result ≡ spec.seen_in self.now.tree.now self.now.function.now }
    {
        match &self.function.blocks {
            Some(blocks) => self.blocks(blocks.as_slice()),
            None => Seen::nothing(),
        }
    }
}

fn function_seen(tree: &Module, signatures: &[Signature], function: &Function) -> Seen
    requires { signatures.now ≡ map spec.signature_of tree.now.funcs }
    ensures { result ≡ spec.seen_in tree.now function.now }
{
    let scene = Scene {
        tree,
        signatures,
        function,
    };
    scene.all()
}

/// What is seen of the operands of these functions.
fn functions_seen(tree: &Module, signatures: &[Signature], mut funcs: &[Function]) -> Seen
    requires { signatures.now ≡ map spec.signature_of tree.now.funcs }
    ensures { result ≡ spec.collected (spec.seen_in tree.now) funcs.entry.now }
{
    let mut seen = Seen::nothing();
    while let [function, rest @ ..] = funcs {
        seen = seen.and(function_seen(tree, signatures, function));
        funcs = rest;
    }
    seen
}

/// What is seen of the operands of a whole module.
pub(crate) fn module_seen(tree: &Module, signatures: &[Signature]) -> Seen
    requires { signatures.now ≡ map spec.signature_of tree.now.funcs }
    ensures { result ≡ spec.seen_in_all tree.now }
{
    functions_seen(tree, signatures, tree.funcs.as_slice())
}
