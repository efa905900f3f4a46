// Entering: a type that is absent from the table becomes its next entry.
#![tactic(auto)]

ghost use Rattle.std.specs.Prelude.{◌≡◌, ◌+◌, ◌*◌, ◌^◌, ◌<◌, ◌≤◌, length, None, OnOk, IfErr};
ghost use Rattle.table.specs.Table.{stride, scalars, ceiling, put_entry, find_in, Sound};
ghost use Rattle.table.specs.Enter.{with_scalars, free, lacking, container, EnterDone, EnterTwoDone, entry_answer};
ghost use Rattle.table.specs.Placing.{enter_type, Gave};

use table::{
    Answer, CEILING, Entered, Entry, Lacks, Place, Reason, SCALARS, STRIDE, TypeNo, accepted,
    allowed, find, refused, sound,
};

// Writes entry i.
fn put_entry(words: &mut [u32], i: usize, e: Entry)
    requires { (i + 1) * stride ≤ length words.old }
    ensures { words.new ≡ put_entry words.old i e }
{
    let at = i * STRIDE;
    words[at] = e.kind;
    words[at + 1] = e.p;
    words[at + 2] = e.q;
    words[at + 3] = e.elem;
}

// The seven scalars, as the first entries.
pub fn put_scalars(words: &mut [u32])
    requires { scalars * stride ≤ length words.old }
    ensures { words.new ≡ with_scalars scalars words.old }
{
    for i in 0..SCALARS {
        put_entry(
            words,
            i,
            Entry {
                kind: i as u32,
                p: 0,
                q: 0,
                elem: 0,
            },
        );
    }
}

// How many entries more the slice and the ceiling leave room for.
fn free_of(words: &[u32], n: usize) -> usize
    requires { Sound words.now n }
    ensures { result ≡ free words.now n }
{
    (words.len() / STRIDE).min(CEILING) - n
}

// Whether there is room for k entries more; else how many of them lack.
fn room_for(words: &[u32], n: usize, k: usize) -> Result<(), Lacks>
    requires { Sound words.now n × (k < 2 ^ 32) }
    ensures room { OnOk result (k ≤ free words.now n) }
    ensures lacks { IfErr result (λ e. (free words.now n < k) × (e.0 ≡ lacking words.now n k)) }
{
    let room = free_of(words, n);
    if room < k {
        return Err(Lacks((k - room) as u32));
    }
    Ok(())
}

// The number of e, which is entered where it is absent.
pub fn enter(words: &mut [u32], n: usize, e: Entry) -> Result<Entered, Lacks>
    requires { Sound words.old n }
    ensures { EnterDone words.old n e result words.new }
{
    if let Some(ty) = find(words, n, e) {
        return Ok(Entered { ty, used: n });
    }
    room_for(words, n, 1)?;
    put_entry(words, n, e);
    Ok(Entered {
        ty: TypeNo(n),
        used: n + 1,
    })
}

// `outer` with the element t.
fn container_of(outer: Entry, t: usize) -> Entry
    requires { t ≤ ceiling }
    ensures { result ≡ container outer t }
{
    Entry {
        elem: t as u32,
        ..outer
    }
}

// The number of the container `outer` over `inner`, which is absent: both are entered, or neither where room lacks for one.
fn enter_both(words: &mut [u32], n: usize, inner: Entry, outer: Entry) -> Result<Entered, Lacks>
    requires { Sound words.old n × (find_in words.old n inner ≡ None) }
    ensures { EnterTwoDone words.old n inner outer result words.new }
{
    room_for(words, n, 2)?;
    put_entry(words, n, inner);
    put_entry(words, n + 1, container_of(outer, n));
    Ok(Entered {
        ty: TypeNo(n + 1),
        used: n + 2,
    })
}

// The number of the container `outer` over `inner`: each is entered where it is absent, or neither where room lacks for one.
pub fn enter_two(words: &mut [u32], n: usize, inner: Entry, outer: Entry) -> Result<Entered, Lacks>
    requires { Sound words.old n }
    ensures { EnterTwoDone words.old n inner outer result words.new }
{
    match find(words, n, inner) {
        Some(t) => enter(words, n, container_of(outer, t.0)),
        None => enter_both(words, n, inner, outer),
    }
}

// The answer of a call at a place by the reply of entering.
pub fn answer_of(place: Place, n: usize, r: Result<Entered, Lacks>) -> Answer
    ensures { result ≡ entry_answer place.0 r n }
{
    match r {
        Ok(e) => accepted(e.ty, e.used),
        Err(e) => refused(Reason::NoRoom(e.0), place, n),
    }
}

// For a host: the type that e stands for, entered where it is absent.
pub fn enter_type(words: &mut [u32], n: usize, e: Entry) -> Answer
    ensures { Gave (enter_type words.old n e) result words.new }
{
    if !sound(words, n) {
        return refused(Reason::Unsound, Place(0), n);
    }
    if !allowed(words, n, e) {
        return refused(Reason::Template, Place(0), n);
    }
    answer_of(Place(0), n, enter(words, n, e))
}
