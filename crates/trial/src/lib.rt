// What a single call would answer. The call is made over a copy of the table, so that the table is only read.
#![tactic(auto)]

ghost use Rattle.std.specs.Prelude.{◌≡◌, ℕ, min, List, length, take};
ghost use Rattle.std.specs.Fn.{FnOnceReturnsAtMut};
ghost use Rattle.answer.specs.declared.Typed.{Typed};
ghost use Rattle.ops_ty.specs.Ops.{type_unary_op, type_binary_op};
ghost use Rattle.call_ty.specs.Calls.{type_builtin_fn};

use table::{Answer, Typed};

// The words of 256 entries: what stands behind them in a slice is never used.
const WORDS: usize = 1024;

// The first word that is copied.
const FIRST: usize = 0;

// How many of the words are copied.
fn copied(words: &[u32]) -> usize
    ensures { result ≡ min (length words.now) 1024 }
{
    words.len().min(WORDS)
}

// What a call answers over a copy of the words. It may write there, since nobody reads the copy afterwards.
fn over_copy<F: FnOnce(&mut [u32]) -> Typed>(words: &[u32], call: F) -> Answer
    requires { F.IsAlwaysCallable call }
    ensures { (r : Typed) × (after : List ℕ) × FnOnceReturnsAtMut F.FnOnce call (take 1024 words.now) r after × (result ≡ r.answer) }
{
    let mut room = [0u32; WORDS];
    let k = copied(words);
    room[FIRST..k].copy_from_slice(&words[FIRST..k]);
    call(&mut room[..k]).answer
}

// What a unary operator would answer; the table is only read.
pub fn unary(words: &[u32], n: usize, op: usize, a: u32) -> Answer
    ensures { result ≡ (type_unary_op words.now n op a).answer }
{
    over_copy(words, |copy| ops_ty::type_unary_op(copy, n, op, a))
}

// What a binary operator would answer.
pub fn binary(words: &[u32], n: usize, op: usize, a: u32, b: u32) -> Answer
    ensures { result ≡ (type_binary_op words.now n op a b).answer }
{
    over_copy(words, |copy| ops_ty::type_binary_op(copy, n, op, a, b))
}

// What a call of a builtin would answer.
pub fn builtin(
    words: &[u32],
    n: usize,
    profile: u32,
    name: &[u8],
    tplt: &[u32],
    args: &[u32],
) -> Answer
    ensures { result ≡ (type_builtin_fn profile words.now n name.now tplt.now args.now).answer }
{
    over_copy(words, |copy| {
        call_ty::type_builtin_fn(copy, n, profile, name, tplt, args)
    })
}
