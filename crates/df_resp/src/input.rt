//! What came on a connection and isn't given yet, and the steps by which a request is taken from it.
//!
//! A step takes a frame's line, where no request is begun, and then words, as many as are whole. A word
//! goes to the request's words as soon as it is whole, as a slice of what was read. So no byte is looked at
//! twice but those of one unfinished line; while a long word comes, its length line is read again and its
//! bytes aren't.

ghost use Rattle.std.specs.Prelude.{◌≡◌, ◌+◌, ◌-◌, ◌<◌, ◌≤◌, [], ◌∷◌, ◌++◌, length, take, drop, IfOk, OnOk, OnErr};
ghost use Rattle.df_resp.specs.Stream.{IsSound, IsPlaced, Counts, rest_of};
ghost use Rattle.df_resp.specs.Steps.{Steps, GoesDown};
ghost use Rattle.df_resp.specs.declared.input.Step.TheVariants.{On};

use crate::front::{self, Seen};
use crate::held::Held;
use crate::limits::{MAX_REQUEST, MAX_WORD};
use bytes::Bytes;
use df_model::{BadKind, NoMemory};
use std::alloc::Global;
use std::mem;

/// A request whose words are taken one after another.
#[derive(Drop)]
pub struct Begun {
    pub words: Vec<Bytes>,
    /// How many words are missing; 0 between requests.
    pub missing: usize,
    /// How many bytes the words have.
    pub total: usize,
}

/// What came and isn't given yet.
#[derive(Drop)]
pub struct Input {
    pub begun: Begun,
    /// What came behind the words.
    pub held: Held,
    /// How many bytes of the connection's input stand before the request.
    pub before: u64,
    /// How many stand before what is held.
    pub place: u64,
}

/// What a step came to.
pub enum Step {
    /// What is left is no whole line or word.
    More,
    /// What was expected at the first bad byte, and its place in what is held.
    Bad(BadKind, usize),
    /// Something was taken, and no request is whole.
    On,
    /// The last word was taken: these are the request's.
    Whole(Vec<Bytes>),
}

/// A step, with the count of what it took.
pub fn take_next(alloc: Global, input: &mut Input) -> Result<Step, NoMemory>
    requires sound { IsSound input.old.begun }
    requires placed { IsPlaced input.old.before input.old.place (rest_of input.old.begun input.old.held) input.old.held }
    ensures sound { IsSound input.new.begun }
    ensures placed { IsPlaced input.new.before input.new.place (rest_of input.new.begun input.new.held) input.new.held }
    ensures steps { IfOk result (λ step. Steps step (rest_of input.old.begun input.old.held) (rest_of input.new.begun input.new.held) input.new.held) }
    ensures down { IfOk result (λ step. GoesDown step input.old.held input.new.held) }
    ensures count { Counts input.old.before (rest_of input.old.begun input.old.held) input.new.before (rest_of input.new.begun input.new.held) }
    ensures err { OnErr result (rest_of input.new.begun input.new.held ≡ rest_of input.old.begun input.old.held) }
{
    let had = input.held.len();
    let step = take_frame(alloc, &mut input.begun, &mut input.held);
    let taken = had - input.held.len();
    input.place = input.place.saturating_add(taken as u64);
    if input.begun.missing == 0 {
        input.before = input.place;
    }
    step
}

/// Takes a frame without words, or as many words of a request as are whole.
fn take_frame(alloc: Global, begun: &mut Begun, held: &mut Held) -> Result<Step, NoMemory>
    requires { IsSound begun.old }
    ensures sound { IsSound begun.new }
    ensures steps { IfOk result (λ step. Steps step (rest_of begun.old held.old) (rest_of begun.new held.new) held.new) }
    ensures down { IfOk result (λ step. GoesDown step held.old held.new) }
    ensures within { length held.new ≤ length held.old }
    ensures same { 0 < begun.new.missing → rest_of begun.new held.new ≡ rest_of begun.old held.old }
    ensures err { OnErr result (rest_of begun.new held.new ≡ rest_of begun.old held.old) }
{
    match begin(begun, held) {
        Step::On => {}
        step => return Ok(step),
    }
    if begun.missing == 0 {
        return Ok(Step::On);
    }
    take_words(alloc, begun, held)
}

/// Takes a frame's line, unless a request is begun.
fn begin(begun: &mut Begun, held: &mut Held) -> Step
    requires { IsSound begun.old }
    ensures sound { IsSound begun.new }
    ensures steps { Steps result (rest_of begun.old held.old) (rest_of begun.new held.new) held.new }
    ensures down { begun.new.missing ≡ 0 → GoesDown result held.old held.new }
    ensures within { length held.new ≤ length held.old }
    ensures same { 0 < begun.new.missing → rest_of begun.new held.new ≡ rest_of begun.old held.old }
{
    if begun.missing > 0 {
        return Step::On;
    }
    take_head(begun, held)
}

/// Takes a frame's line.
fn take_head(begun: &mut Begun, held: &mut Held) -> Step
    requires sound { IsSound begun.old }
    requires between { begun.old.missing ≡ 0 }
    ensures sound { IsSound begun.new }
    ensures steps { Steps result held.old (rest_of begun.new held.new) held.new }
    ensures down { GoesDown result held.old held.new }
    ensures within { length held.new ≤ length held.old }
    ensures same { 0 < begun.new.missing → rest_of begun.new held.new ≡ held.old }
{
    match front::head_at(held.as_slice()) {
        Seen::More => Step::More,
        Seen::Bad(kind, at) => Step::Bad(kind, at),
        Seen::Whole(count, used) => {
            held.advance(used);
            begun.missing = count;
            Step::On
        }
    }
}

/// Takes words of the request until it is whole or what is left isn't a whole word.
fn take_words(alloc: Global, begun: &mut Begun, held: &mut Held) -> Result<Step, NoMemory>
    requires sound { IsSound begun.old }
    requires inside { 0 < begun.old.missing }
    ensures sound { IsSound begun.new }
    ensures steps { IfOk result (λ step. Steps step (rest_of begun.old held.old) (rest_of begun.new held.new) held.new) }
    ensures down { IfOk result (λ step. GoesDown step held.old held.new) }
    ensures within { length held.new ≤ length held.old }
    ensures same { 0 < begun.new.missing → rest_of begun.new held.new ≡ rest_of begun.old held.old }
    ensures err { OnErr result (rest_of begun.new held.new ≡ rest_of begun.old held.old) }
{
    'words: loop {
        match take_word(alloc, begun, held)? {
            Step::On => {}
            step => return Ok(step),
        }
    }
}

/// Takes a word of the request.
fn take_word(alloc: Global, begun: &mut Begun, held: &mut Held) -> Result<Step, NoMemory>
    requires sound { IsSound begun.old }
    requires inside { 0 < begun.old.missing }
    ensures sound { IsSound begun.new }
    ensures steps { IfOk result (λ step. Steps step (rest_of begun.old held.old) (rest_of begun.new held.new) held.new) }
    ensures down { IfOk result (λ step. GoesDown step held.old held.new) }
    ensures within { length held.new ≤ length held.old }
    ensures same { 0 < begun.new.missing → rest_of begun.new held.new ≡ rest_of begun.old held.old }
    ensures inside { IfOk result (λ step. step ≡ On → 0 < begun.new.missing) }
    ensures err { OnErr result (rest_of begun.new held.new ≡ rest_of begun.old held.old) }
    ensures err_held { OnErr result (held.new ≡ held.old) }
{
    let limit = MAX_WORD.min(MAX_REQUEST - begun.total);
    match front::word_at(held.as_slice(), limit) {
        Seen::More => Ok(Step::More),
        Seen::Bad(kind, at) => Ok(Step::Bad(kind, at)),
        Seen::Whole(n, used) => {
            move_word(&mut begun.words, held, n, used)?;
            begun.missing -= 1;
            begun.total += n;
            if begun.missing > 0 {
                return Ok(Step::On);
            }
            begun.total = 0;
            Ok(Step::Whole(mem::replace(&mut begun.words, Vec::new(alloc))))
        }
    }
}

/// Moves a word of `n` bytes, which ends two bytes before `used`, to the words.
fn move_word(words: &mut Vec<Bytes>, held: &mut Held, n: usize, used: usize) -> Result<(), NoMemory>
    requires room { n + 2 < used }
    requires within { used ≤ length held.old }
    ensures words { OnOk result (words.new.items ≡ words.old.items ++ take n (drop (used - n - 2) held.old) ∷ []) }
    ensures held { OnOk result (held.new ≡ drop used held.old) }
    ensures err_words { OnErr result (words.new.items ≡ words.old.items) }
    ensures err_held { OnErr result (held.new ≡ held.old) }
{
    words.reserve(1)?;
    words.push_reserved(held.cut(n, used)?);
    Ok(())
}
