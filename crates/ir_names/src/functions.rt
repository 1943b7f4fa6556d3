//! Functions.
#![tactic(auto, using(crate::proofs::Parts::fails_front, crate::proofs::Parts::fails_behind, crate::proofs::Parts::clean))]

ghost use Rattle.std.specs.Prelude.{◌≡◌, ◌++◌, [], length, IfOk, OnOk, map};
ghost use Rattle.std.specs.List.{flat_map, filter_map, cons_option};
ghost use Rattle.ir_names.specs.Functions.{behind_params};
ghost use Rattle.ir_names.specs.code.Answers.{Gives};
ghost use Rattle.ir_names.specs.Functions as spec;
ghost use Rattle.ir_names.specs.code.Held.{Holds};
ghost use Rattle.ir_names.specs.code.Names.{same_name};
ghost use Rattle.ir_names.specs.code.Tables as numbers;
ghost use Rattle.ir_names.specs.code.Seen.{seen, outside};
ghost use Rattle.ir_tokens.specs.Spelled.{name_at};

use crate::blocks::name_or;
use crate::collect::{Values, behind_param, labels};
use crate::fault::Stop;
use crate::lines::next;
use crate::numbers::Numbers;
use crate::outer::Outer;
use crate::scope::{Locals, Scope, narrow};
use ir_grammar::{AttrSyntax, BlockSyntax, FunctionSyntax, ItemSyntax, ParamSyntax};
use ir_module::{Attr, Attrs, Blocks, Function};
use ir_tokens::Token;
use ir_values::{Copies, Memory, Name, Seq};
use std::alloc::Global;

/// The token at which a parameter is told.
fn param_token(param: &ParamSyntax) -> Token
    ensures { result ≡ spec.param_token param.now.first param.now.name }
{
    match &param.name {
        Some(token) => *token,
        None => param.first,
    }
}

/// The labels of a body, if there is one.
fn body_labels(
    alloc: Global,
    text: &[u8],
    blocks: &Option<Seq<BlockSyntax>>,
    unnamed: u32,
) -> Result<Numbers<Name>, Memory>
    ensures { IfOk result (λ t. numbers.Numbers same_name t (spec.body_labels (name_at text.now) unnamed blocks.now)) }
{
    match blocks {
        None => Ok(Numbers::new(alloc)),
        Some(blocks) => labels(alloc, text, blocks.as_slice(), unnamed),
    }
}

/// The values of a function, and how many of its parameters have no name.
fn values(alloc: Global, text: &[u8], function: &FunctionSyntax) -> Result<(Values, u32), Memory>
    ensures holds { IfOk result (λ r. Holds r.0) }
    ensures list { IfOk result (λ r. r.0.list ≡ spec.locals_of (name_at text.now) function.now) }
    ensures unnamed { IfOk result (λ r. r.1 ≡ behind_params 0 function.now.params) }
{
    let mut values = Values::new(alloc);
    let unnamed = values.params(alloc, text, function.params.as_slice(), 0)?;
    match &function.blocks {
        None => Ok((values, unnamed)),
        Some(blocks) => {
            values.blocks(alloc, text, blocks.as_slice())?;
            Ok((values, unnamed))
        }
    }
}

impl Scope<'_> {
    /// Parameters whose names are new, behind so many values.
    fn params(
        &self,
        mut params: &[ParamSyntax],
        mut unnamed: u32,
        mut values: u64,
    ) -> Result<(), Stop>
        ensures { Gives (spec.params_faults (seen self.now) unnamed values params.entry.now) tt result }
    {
        while let [param, rest @ ..] = params {
            let name = name_or(self.outer.alloc, self.outer.text, &param.name, unnamed)?;
            self.fresh(&param_token(param), &name, values, 0)?;
            unnamed = behind_param(param, unnamed)?;
            values = next(values)?;
            params = rest;
        }
        Ok(())
    }

    /// A body, if there is one.
    fn body(
        &self,
        blocks: &Option<Seq<BlockSyntax>>,
        unnamed: u32,
        values: u64,
    ) -> Result<Option<Blocks>, Stop>
        ensures { Gives (spec.body_faults (seen self.now) unnamed values blocks.now) (spec.body_of (seen self.now) unnamed values blocks.now) result }
    {
        match blocks {
            None => Ok(None),
            Some(blocks) => Ok(Some(self.blocks(blocks.as_slice(), unnamed, values, 0)?)),
        }
    }

    /// An attribute, if it is a string.
    fn attr(&self, attr: &AttrSyntax) -> Result<Option<Attr>, Memory>
        ensures { IfOk result (λ a. a ≡ spec.attr_of (seen self.now) attr.now) }
    {
        match attr {
            AttrSyntax::Word => Ok(None),
            AttrSyntax::Text(key, value) => {
                let key = self.string(key)?;
                let value = match value {
                    None => None,
                    Some(value) => Some(self.string(value)?),
                };
                Ok(Some(Attr { key, value }))
            }
        }
    }

    /// The attributes of a group.
    #[tactic(auto, using(crate::proofs::Lists::one_more))]
    fn group_attrs(&self, mut attrs: &[AttrSyntax]) -> Result<Attrs, Memory>
        ensures { IfOk result (λ xs. xs ≡ filter_map (spec.attr_of (seen self.now)) attrs.entry.now) }
    {
        let mut out = Seq::new(self.outer.alloc);
        while let [attr, rest @ ..] = attrs {
            push_some(&mut out, self.attr(attr)?)?;
            attrs = rest;
        }
        Ok(out)
    }

    /// The attributes of the group of a token.
    fn attrs_at(&self, token: &Token) -> Result<Attrs, Memory>
        ensures { IfOk result (λ xs. xs ≡ spec.group_attrs (seen self.now) token.now) }
    {
        match self.outer.group(token) {
            Some(ItemSyntax::Group(_, attrs)) => self.group_attrs(attrs.as_slice()),
            _ => Ok(Seq::new(self.outer.alloc)),
        }
    }

    /// The attributes of groups.
    fn attrs(&self, mut groups: &[Token]) -> Result<Attrs, Memory>
        ensures { IfOk result (λ xs. xs ≡ flat_map (spec.group_attrs (seen self.now)) groups.entry.now) }
    {
        let mut out = Seq::new(self.outer.alloc);
        while let [group, rest @ ..] = groups {
            out.append(self.attrs_at(group)?)?;
            groups = rest;
        }
        Ok(out)
    }

    /// A function, with its values and the number of its parameters without a name.
    fn inner(
        &self,
        function: &FunctionSyntax,
        values: ir_module::Locals,
        unnamed: u32,
    ) -> Result<Function, Stop>
        requires { unnamed ≡ behind_params 0 function.now.params }
        ensures { Gives (spec.inner_faults (seen self.now) function.now) (spec.inner_of (seen self.now) values function.now) result }
    {
        let count = function.params.len() as u64;
        self.params(function.params.as_slice(), 0, 0)?;
        self.groups(function.groups.as_slice())?;
        let blocks = self.body(&function.blocks, unnamed, count)?;
        Ok(Function {
            name: self.name(&function.name)?,
            ret: function.ret.copy(self.outer.alloc)?,
            params: narrow(count)?,
            locals: values,
            attrs: self.attrs(function.groups.as_slice())?,
            blocks,
        })
    }
}

/// Adds what there is.
pub(crate) fn push_some<T: Drop>(list: &mut Seq<T>, made: Option<T>) -> Result<(), Memory>
    ensures { OnOk result (list.new ≡ list.old ++ cons_option made []) }
{
    match made {
        None => Ok(()),
        Some(made) => list.push(made),
    }
}

impl Outer<'_> {
    /// A function of a text.
    pub(crate) fn function(&self, function: &FunctionSyntax) -> Result<Function, Stop>
        ensures { Gives (spec.function_faults (outside self.now) function.now) (spec.function_of (outside self.now) function.now) result }
    {
        let (found, unnamed) = values(self.alloc, self.text, function)?;
        let labels = body_labels(self.alloc, self.text, &function.blocks, unnamed)?;
        let Values { table, list } = found;
        let locals = Locals {
            values: table,
            labels,
        };
        let scope = Scope {
            outer: *self,
            locals: &locals,
        };
        scope.inner(function, list, unnamed)
    }
}
