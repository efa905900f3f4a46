// Template types: a head with a list of arguments is the type of that name, entered where it is absent.
#![tactic(auto)]

ghost use Rattle.std.specs.Prelude.{◌<◌, ◌≡◌};
ghost use Rattle.table.specs.Table.{ceiling, Sound};
ghost use Rattle.table.specs.Denote.{type_at};
ghost use Rattle.tplt.specs.Templates.{is_concrete, is_matrix_component, is_atomic_component, is_element, vec_parsed, mat_parsed, atomic_parsed, array_of_type, array_parsed, parsed_of, template_outcome};
ghost use Rattle.table.specs.Placing.{Gave};
ghost use Rattle.tplt.specs.inner.Steps.{alone_in, vec_entry, mat_entry, atomic_entry, array_entry, number_in, entry_in, Below, Fit, Outcomes};

mod head;
mod param;

use entering::{answer_of, enter};
use head::{Head, head_of};
use param::{Arguments, TpltParam, arguments_of, count_of, types_known};
use table::{Answer, Entry, Place, Reason, TypeNo, entry_at, refused, sound};

// The four templates, each with the number of its component or element.
#[derive(Clone, Copy)]
pub struct VecTemplate {
    pub n: u32,
    pub ty: TypeNo,
}

#[derive(Clone, Copy)]
pub struct MatTemplate {
    pub c: u32,
    pub r: u32,
    pub ty: TypeNo,
}

#[derive(Clone, Copy)]
pub struct AtomicTemplate {
    pub ty: TypeNo,
}

#[derive(Clone, Copy)]
pub struct ArrayTemplate {
    pub n: Option<u32>,
    pub ty: TypeNo,
}

// What a head and a list come to, if nothing is wrong with them.
#[derive(Clone, Copy)]
pub enum Parsed {
    OfVec(VecTemplate),
    OfMat(MatTemplate),
    OfAtomic(AtomicTemplate),
    OfArray(ArrayTemplate),
}

// A scalar that is not abstract.
fn is_concrete(t: TypeNo) -> bool
    ensures { result ≡ is_concrete t.0 }
{
    (t.0 == table::BOOL)
        | (t.0 == table::I32)
        | (t.0 == table::U32)
        | (t.0 == table::F32)
        | (t.0 == table::F16)
}

fn is_matrix_component(t: TypeNo) -> bool
    ensures { result ≡ is_matrix_component t.0 }
{
    (t.0 == table::F32) | (t.0 == table::F16)
}

fn is_atomic_component(t: TypeNo) -> bool
    ensures { result ≡ is_atomic_component t.0 }
{
    (t.0 == table::I32) | (t.0 == table::U32)
}

// Whether an array may have elements of this type: no pointer, no reference and no array without count.
fn is_element(words: &[u32], n: usize, t: TypeNo) -> bool
    requires sound { Sound words.now n }
    requires t_lt_n { t.0 < n }
    ensures { result ≡ is_element (type_at words.now t.0) }
{
    let i = t.0;
    let e = entry_at(words, i);
    (e.kind != table::KIND_PTR) & (e.kind != table::KIND_REF) & (e.kind != table::KIND_RUNTIME)
}

// The type of a list that is a type alone.
fn alone_in(a: Option<Arguments>) -> Result<TypeNo, Reason>
    ensures { result ≡ alone_in a }
{
    match a.ok_or(Reason::Template)? {
        Arguments::One(t) => Ok(t),
        Arguments::Two(_, _) => Err(Reason::Template),
    }
}

// An array of a type, without a count or with that of a literal.
fn array_of_type(
    words: &[u32],
    n: usize,
    t: TypeNo,
    literal: Option<TpltParam>,
) -> Result<Parsed, Reason>
    requires sound { Sound words.now n }
    requires t_lt_n { t.0 < n }
    ensures { result ≡ array_of_type words.now t literal }
{
    if !is_element(words, n, t) {
        return Err(Reason::Template);
    }
    let count = match literal {
        Some(p) => Some(count_of(p)?),
        None => None,
    };
    Ok(Parsed::OfArray(ArrayTemplate { n: count, ty: t }))
}

impl VecTemplate {
    fn parse(n: u32, a: Option<Arguments>) -> Result<Parsed, Reason>
        ensures { result ≡ vec_parsed n a }
    {
        let t = alone_in(a)?;
        if is_concrete(t) {
            return Ok(Parsed::OfVec(VecTemplate { n, ty: t }));
        }
        Err(Reason::Template)
    }

    fn ty(self) -> Entry
        requires { self.ty.0 < ceiling }
        ensures { result ≡ vec_entry self }
    {
        let n = self.n;
        let t = self.ty;
        Entry {
            kind: table::KIND_VEC,
            p: n,
            q: 0,
            elem: t.0 as u32,
        }
    }
}

impl MatTemplate {
    fn parse(c: u32, r: u32, a: Option<Arguments>) -> Result<Parsed, Reason>
        ensures { result ≡ mat_parsed c r a }
    {
        let t = alone_in(a)?;
        if is_matrix_component(t) {
            return Ok(Parsed::OfMat(MatTemplate { c, r, ty: t }));
        }
        Err(Reason::Template)
    }

    fn ty(self) -> Entry
        requires { self.ty.0 < ceiling }
        ensures { result ≡ mat_entry self }
    {
        let c = self.c;
        let r = self.r;
        let t = self.ty;
        Entry {
            kind: table::KIND_MAT,
            p: c,
            q: r,
            elem: t.0 as u32,
        }
    }
}

impl AtomicTemplate {
    fn parse(a: Option<Arguments>) -> Result<Parsed, Reason>
        ensures { result ≡ atomic_parsed a }
    {
        let t = alone_in(a)?;
        if is_atomic_component(t) {
            return Ok(Parsed::OfAtomic(AtomicTemplate { ty: t }));
        }
        Err(Reason::Template)
    }

    fn ty(self) -> Entry
        requires { self.ty.0 < ceiling }
        ensures { result ≡ atomic_entry self }
    {
        let t = self.ty;
        Entry {
            kind: table::KIND_ATOMIC,
            p: 0,
            q: 0,
            elem: t.0 as u32,
        }
    }
}

impl ArrayTemplate {
    fn parse(words: &[u32], n: usize, a: Option<Arguments>) -> Result<Parsed, Reason>
        requires sound { Sound words.now n }
        requires below { Below n a }
        ensures { result ≡ array_parsed words.now a }
    {
        match a.ok_or(Reason::Template)? {
            Arguments::One(t) => array_of_type(words, n, t, None),
            Arguments::Two(t, p) => array_of_type(words, n, t, Some(p)),
        }
    }

    fn ty(self) -> Entry
        requires { self.ty.0 < ceiling }
        ensures { result ≡ array_entry self }
    {
        let n = self.n;
        let t = self.ty;
        let elem = t.0 as u32;
        match n {
            Some(count) => Entry {
                kind: table::KIND_ARRAY,
                p: count,
                q: 0,
                elem,
            },
            None => Entry {
                kind: table::KIND_RUNTIME,
                p: 0,
                q: 0,
                elem,
            },
        }
    }
}

// The template of a head and a list.
fn parse(words: &[u32], n: usize, h: Option<Head>, a: Option<Arguments>) -> Result<Parsed, Reason>
    requires sound { Sound words.now n }
    requires below { Below n a }
    ensures { result ≡ parsed_of words.now h a }
{
    match h.ok_or(Reason::Unknown)? {
        Head::Vector(k) => VecTemplate::parse(k, a),
        Head::Matrix(c, r) => MatTemplate::parse(c, r, a),
        Head::Atomic => AtomicTemplate::parse(a),
        Head::Array => ArrayTemplate::parse(words, n, a),
    }
}

// The entry of a template.
fn entry_of(p: Parsed) -> Entry
    requires { number_in p < ceiling }
    ensures { result ≡ entry_in p }
{
    match p {
        Parsed::OfVec(t) => t.ty(),
        Parsed::OfMat(t) => t.ty(),
        Parsed::OfAtomic(t) => t.ty(),
        Parsed::OfArray(t) => t.ty(),
    }
}

// The type of a template, entered where it is absent.
fn enter_parsed(words: &mut [u32], n: usize, p: Parsed) -> Answer
    requires sound { Sound words.old n }
    requires fit { Fit words.old n p }
    ensures { Outcomes words.old n p result words.new }
{
    answer_of(Place(0), n, enter(words, n, entry_of(p)))
}

// The type of a head with a list of arguments, pairs of a tag and a value.
pub fn type_template(words: &mut [u32], n: usize, head: &[u8], args: &[i64]) -> Answer
    ensures { Gave (template_outcome words.old n head.now args.now) result words.new }
{
    if !sound(words, n) {
        return refused(Reason::Unsound, Place(0), n);
    }
    if !types_known(n, args) {
        return refused(Reason::NoSuchType, Place(0), n);
    }
    match parse(words, n, head_of(head), arguments_of(n, args)) {
        Ok(p) => enter_parsed(words, n, p),
        Err(r) => refused(r, Place(0), n),
    }
}
