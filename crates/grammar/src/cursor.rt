//! A place in a list of tokens, and what reading gives up with.
ghost use Rattle.std.specs.Prelude.{◌≡◌, ℕ, Bool, true, nat_eq, Option, Some, None, Err, IfOk, ◌||◌, [], ◌∷◌};
ghost use Rattle.grammar.specs.Grammar.{alphabet, tok, opt, any, has, begins_with, ignored};
ghost use Rattle.grammar.specs.code.Gives.{Gives, Fails};
ghost use Rattle.grammar.specs.code.Reading.{read};
ghost use Rattle.grammar.specs.declared.cursor.Halt.TheVariants as halt;

use crate::fault::Fault;
use ir_values::Memory;
use std::alloc::{AllocError, AllocFailed};

/// A token. Its kind tells which productions take it, and the rest of it is for trees and side rules.
pub trait Terminal: Copy {
    /// The kinds of tokens. They are told apart by their codes.
    type Kind: Copy;

    /// What is said of a token that breaks a side rule.
    type Rule: Drop;

    ghost kind: { Self → Self.Kind };

    ghost code: { Self.Kind → ℕ };

    /// Whether the token is of the kind.
    fn is(&self, wanted: Self::Kind) -> bool
        ensures { result ≡ nat_eq (code wanted) (code (kind self.now)) };

    ghost told_apart: { (a b : Self.Kind) → code a ≡ code b → a ≡ b };
}

/// Whether the token is of one of the kinds.
pub fn is_one_of<T: Terminal>(token: &T, mut kinds: &[T::Kind]) -> bool
    ensures { result ≡ has (alphabet T.Rule T.kind T.code) kinds.entry.now (T.kind token.now) }
{
    while let [kind, rest @ ..] = kinds {
        if token.is(*kind) {
            return true;
        }
        kinds = rest;
    }
    false
}

/// A rule that tokens have to keep beside their kind.
pub trait SideRule<T: Terminal> {
    ghost broken: { Self → T → Option T.Rule };

    /// What the token breaks, if anything.
    fn broken_by(&self, token: &T) -> Option<T::Rule>
        ensures { result ≡ broken self.now token.now };
}

/// A place in a list of tokens.
#[derive(Debug, Drop)]
pub struct Cursor<'a, T> {
    /// The tokens that are left.
    pub rest: &'a [T],
    /// Whether a marked part of the grammar might have begun here, beside what is looked for next.
    pub marked: bool,
}

/// What reading gives up with.
#[derive(Debug, Drop)]
pub enum Halt<'a, T, R> {
    /// There is no memory left.
    Memory,
    /// The first fault, and the tokens from it on: none where it is that they end.
    At(Fault<R>, &'a [T]),
}

impl<T, R> From<AllocError> for Halt<'_, T, R> {
    ghost from_gives = { λ _ e. e ≡ halt.Memory };

    fn from(_e: AllocError) -> Self {
        Halt::Memory
    }
}

impl<X: Drop, T, R> From<AllocFailed<X>> for Halt<'_, T, R> {
    ghost from_gives = { λ _ e. e ≡ halt.Memory };

    fn from(_e: AllocFailed<X>) -> Self {
        Halt::Memory
    }
}

impl<T, R> From<Memory> for Halt<'_, T, R> {
    ghost from_gives = { λ _ e. e ≡ halt.Memory };

    fn from(_e: Memory) -> Self {
        Halt::Memory
    }
}

impl<T> Cursor<'_, T> {
    /// Passes over a part of the grammar that does not begin here; the flag says whether it may begin with a marked one.
    pub fn skip(&mut self, marked: bool)
        ensures rest { self.new.rest ≡ self.old.rest }
        ensures marked { self.new.marked ≡ (self.old.marked || marked) }
    {
        self.marked = self.marked || marked;
    }
}

impl<'a, T: Terminal> Cursor<'a, T> {
    /// Whether there is a next token and it is of the kind.
    pub fn next_is(&self, kind: T::Kind) -> bool
        ensures { result ≡ begins_with (alphabet T.Rule T.kind T.code) (kind ∷ []) self.now.rest.now }
    {
        match self.rest {
            [] => false,
            [token, ..] => token.is(kind),
        }
    }

    /// Whether there is a next token and it is of one of the kinds.
    pub fn next_is_one_of(&self, kinds: &[T::Kind]) -> bool
        ensures { result ≡ begins_with (alphabet T.Rule T.kind T.code) kinds.now self.now.rest.now }
    {
        match self.rest {
            [] => false,
            [token, ..] => is_one_of(token, kinds),
        }
    }

    /// Takes the next token, which is to be of the kind; any other, or none, is the fault. A fault leaves the cursor.
    pub fn take(&mut self, kind: T::Kind) -> Result<T, Halt<'a, T, T::Rule>>
        ensures gives { Gives {L = alphabet T.Rule T.kind T.code} (tok (kind ∷ []) any) self.old self.new result }
        ensures needs_no_memory { (result ≡ Err halt.Memory) → ⊥ }
        ensures stays { (e : _) → result ≡ Err e → self.new ≡ self.old }
    {
        match self.rest {
            [token, rest @ ..] if token.is(kind) => {
                self.rest = rest;
                self.marked = false;
                Ok(*token)
            }
            _ => Err(Halt::At(Fault::Unexpected(self.marked), self.rest)),
        }
    }

    /// Takes the next token, which is to be of one of the kinds.
    pub fn take_one_of(&mut self, kinds: &[T::Kind]) -> Result<T, Halt<'a, T, T::Rule>>
        ensures gives { Gives {L = alphabet T.Rule T.kind T.code} (tok kinds.now any) self.old self.new result }
        ensures kind { IfOk result (λ t. has (alphabet T.Rule T.kind T.code) kinds.now (T.kind t) ≡ true) }
    {
        match self.rest {
            [token, rest @ ..] if is_one_of(token, kinds) => {
                self.rest = rest;
                self.marked = false;
                Ok(*token)
            }
            _ => Err(Halt::At(Fault::Unexpected(self.marked), self.rest)),
        }
    }

    /// Takes the next token if it is of one of the kinds.
    pub fn take_any_of(&mut self, kinds: &[T::Kind]) -> Result<Option<T>, Halt<'a, T, T::Rule>>
        ensures { Gives {L = alphabet T.Rule T.kind T.code} (opt (tok kinds.now any)) self.old self.new result }
    {
        if !self.next_is_one_of(kinds) {
            return Ok(None);
        }
        Ok(Some(self.take_one_of(kinds)?))
    }

    /// Passes over tokens of these kinds, as long as one comes next.
    pub fn ignore(&mut self, kinds: &[T::Kind]) -> Result<(), Halt<'a, T, T::Rule>>
        ensures { Gives {L = alphabet T.Rule T.kind T.code} (ignored kinds.now) self.old self.new result }
    {
        while self.next_is_one_of(kinds) {
            self.take_one_of(kinds)?;
        }
        Ok(())
    }

    /// Takes the next token, which is to be of one of the kinds and to keep the rule.
    pub fn take_ruled<S: SideRule<T>>(
        &mut self,
        kinds: &[T::Kind],
        rule: &S,
    ) -> Result<T, Halt<'a, T, T::Rule>>
        ensures gives { Gives {L = alphabet T.Rule T.kind T.code} (tok kinds.now (S.broken rule.now)) self.old self.new result }
        ensures kind { IfOk result (λ t. has (alphabet T.Rule T.kind T.code) kinds.now (T.kind t) ≡ true) }
        ensures keeps { IfOk result (λ t. S.broken rule.now t ≡ None) }
    {
        match self.rest {
            [token, rest @ ..] if is_one_of(token, kinds) => {
                if let Some(broken) = rule.broken_by(token) {
                    return Err(Halt::At(Fault::Broken(broken), self.rest));
                }
                self.rest = rest;
                self.marked = false;
                Ok(*token)
            }
            _ => Err(Halt::At(Fault::Unexpected(self.marked), self.rest)),
        }
    }

    /// Why the next token is refused, where one of the kind breaks the side rule and no other may stand here.
    pub fn refuse(&self, kind: T::Kind, rule: T::Rule) -> Halt<'a, T, T::Rule>
        ensures reads { Fails {L = alphabet T.Rule T.kind T.code} result (read (tok (kind ∷ []) (λ _. Some rule)) self.now.marked self.now.rest.now) }
        ensures needs_no_memory { (result ≡ halt.Memory) → ⊥ }
    {
        if self.next_is(kind) {
            return Halt::At(Fault::Broken(rule), self.rest);
        }
        Halt::At(Fault::Unexpected(self.marked), self.rest)
    }
}
