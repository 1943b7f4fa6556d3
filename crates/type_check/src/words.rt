//! Words of a type that stand at the beginning of others.
ghost use Rattle.std.specs.Prelude.{◌≡◌, [], ◌∷◌, option_map, map, length};
ghost use Rattle.ir_values.specs.declared.sig.TyWord.TheVariants as word;
ghost use Rattle.ir_values.specs.Calls.{same_words};
ghost use Rattle.ir_values.specs.Types.{words_of, signature};
ghost use Rattle.type_check.specs.code.Strip as strip;

use ir_module::Operand;
use ir_values::{Exact, Sig, Ty, TyWord};

/// The words behind the first, where it is this word.
fn after_word(words: &[TyWord], word: TyWord) -> Option<&[TyWord]>
    ensures { option_map (λ r. r.now) result ≡ strip.after_words (word ∷ []) words.now }
{
    match words {
        [first, rest @ ..] => { if first.same(&word) { Some(rest) } else { None } }
        [] => None,
    }
}

/// The words behind the first ones, where they are these words.
fn after_all<'a>(words: &'a [TyWord], mut first: &[TyWord]) -> Option<&'a [TyWord]>
    ensures { option_map (λ r. r.now) result ≡ strip.after_words first.entry.now words.now }
{
    let mut left = words;
    while let [word, rest @ ..] = first {
        left = after_word(left, *word)?;
        first = rest;
    }
    Some(left)
}

/// The words behind those of the type, where these come first.
fn after_type<'a>(words: &'a [TyWord], t: &Ty) -> Option<&'a [TyWord]>
    ensures { option_map (λ r. r.now) result ≡ strip.after_words (words_of t.now) words.now }
{
    match t {
        Ty::Void => after_word(words, TyWord::Void),
        Ty::Int(w) => after_word(words, TyWord::Int(*w)),
        Ty::Double => after_word(words, TyWord::Double),
        Ty::Qubit => after_word(words, TyWord::Qubit),
        Ty::Res => after_word(words, TyWord::Res),
        Ty::Text => after_word(words, TyWord::Text),
        Ty::Func(sig) => after_all(words, sig.words().as_slice()),
    }
}

/// The words behind those of the types of arguments, where these come first.
fn after_args<'a>(words: &'a [TyWord], mut args: &[(Ty, Operand)]) -> Option<&'a [TyWord]>
    ensures { option_map (λ r. r.now) result ≡ strip.after_types (map (λ a. a.0) args.entry.now) words.now }
{
    let mut left = words;
    while let [(t, _), rest @ ..] = args {
        left = after_type(left, t)?;
        args = rest;
    }
    Some(left)
}

/// The words behind the first, where it is that of so many parameters.
fn after_count(words: &[TyWord], count: usize) -> Option<&[TyWord]>
    ensures { option_map (λ r. r.now) result ≡ strip.after_words (word.Func count ∷ []) words.now }
{
    match words {
        [TyWord::Func(n), rest @ ..] => {
            if *n as usize == count {
                Some(rest)
            } else {
                None
            }
        }
        _ => None,
    }
}

/// Whether there are words, and none of them is left.
fn ends(words: Option<&[TyWord]>) -> bool
    ensures { result ≡ strip.ends (option_map (λ r. r.now) words.entry) }
{
    match words {
        Some([]) => true,
        _ => false,
    }
}

fn after_called<'a>(words: &'a [TyWord], ret: &Ty, args: &[(Ty, Operand)]) -> Option<&'a [TyWord]>
    ensures { option_map (λ r. r.now) result ≡ strip.after_signature (length args.now) ret.now (map (λ a. a.0) args.now) words.now }
{
    let words = after_count(words, args.len())?;
    let words = after_type(words, ret)?;
    after_args(words, args)
}

/// Whether the type is that of the functions that give `ret` and take these arguments.
pub(crate) fn is_call(sig: &Sig, ret: &Ty, args: &[(Ty, Operand)]) -> bool
    ensures { result ≡ same_words sig.now (signature ret.now (map (λ a. a.0) args.now)) }
{
    ends(after_called(sig.words().as_slice(), ret, args))
}
