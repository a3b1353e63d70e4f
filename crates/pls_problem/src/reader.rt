//! The reader of an instance's text.
#![tactic(auto, unfolding(crate::specs::Kinds::size_limits))]

ghost use Rattle.std.specs.Prelude.{◌≡◌, ◌⊎◌, ◌<◌, ◌≤◌, ◌^◌, ◌-◌, [], ◌∷◌, length, replicate, min, true, false, All, IfOk, IfErr, IfSome, IfNone, OnOk, Ok, Err};
ghost use Rattle.std.specs.Str.{all_ascii_digits};
ghost use Rattle.std.specs.Str.Parse.{digits_value};
ghost use Rattle.pls_io.specs.Words.{placed};
ghost use Rattle.pls_problem.specs.declared.instance.Instance.{Instance as AnyInstance};
ghost use Rattle.pls_problem.specs.Kinds.{size_limits};
ghost use Rattle.pls_problem.specs.Reading.{instance, of_kind, sized, ended_with, number, numbers};
ghost use Rattle.pls_problem.specs.Sizes.{AreWithinLimits, in_text};

use crate::instance::Instance;
use crate::kind::Kind;
use crate::sizes::Sizes;
use pls_io::{Tokens, Word};
use std::alloc::{AllocError, Global};

/// Why a text is no instance, with the number of bytes before the word at fault (for Short: the
/// length of the text). Want of memory is no fault of the text.
#[derive(Clone, Copy, Debug, PartialEq, Eq)]
pub enum BadInstance {
    /// The text begins with another word than `pls1`.
    Head(u32),
    /// The text ends before the instance is complete.
    Short(u32),
    /// Where a number is due, a byte of the word is no digit.
    Word(u32),
    /// The number is not within its limits.
    Range(u32),
    /// Words go on after the last number.
    Extra(u32),
    /// No kind of problem has this name.
    Shape(u32),
    /// Memory ran out.
    Memory,
}

impl From<AllocError> for BadInstance {
    ghost use Rattle.std.specs.Prelude.{◌≡◌};
    ghost use Rattle.pls_problem.specs.declared.reader.BadInstance.TheVariants.{Memory};

    ghost from_gives = { λ _ e. e ≡ Memory };

    fn from(_want: AllocError) -> BadInstance {
        BadInstance::Memory
    }
}

/// The instance that a text stands for, or its first fault in the order of words.
pub fn read(alloc: Global, text: &[u8]) -> Result<Instance, BadInstance>
    requires { length text.now < 2 ^ 32 }
    ensures read { IfOk result (λ i. instance text.now ≡ Ok i) }
    ensures fault { IfErr result (λ e. (e ≡ BadInstance.Memory) ⊎ (instance text.now ≡ Err e)) }
{
    let mut words = Tokens::new(text);
    let end = text.len() as u32;
    let head = next_word(&mut words, end)?;
    if head.text != b"pls1".as_slice() {
        return Err(BadInstance::Head(head.place));
    }
    let name = next_word(&mut words, end)?;
    match Kind::named(name.text) {
        Some(kind) => read_kind(alloc, &mut words, end, kind),
        None => Err(BadInstance::Shape(name.place)),
    }
}

/// Reads the words after the kind.
fn read_kind(
    alloc: Global,
    words: &mut Tokens<'_>,
    end: u32,
    kind: Kind,
) -> Result<Instance, BadInstance>
    ensures read { IfOk result (λ i. of_kind end kind words.old ≡ Ok i) }
    ensures fault { IfErr result (λ e. (e ≡ BadInstance.Memory) ⊎ (of_kind end kind words.old ≡ Err e)) }
{
    let sizes = read_sizes(words, end, kind)?;
    read_sized(alloc, words, end, &sizes)
}

/// Reads the sizes that a kind has.
fn read_sizes(words: &mut Tokens<'_>, end: u32, kind: Kind) -> Result<Sizes, BadInstance>
    ensures read { IfOk result (λ s. numbers end (size_limits kind) words.old ≡ Ok (in_text s, words.new)) }
    ensures kind { IfOk result (λ s. s.kind ≡ kind) }
    ensures limits { IfOk result AreWithinLimits }
    ensures fault { IfErr result (λ e. numbers end (size_limits kind) words.old ≡ Err e) }
{
    match kind {
        Kind::Knapsack => read_knapsack_sizes(words, end),
        Kind::Assignment => read_assignment_sizes(words, end),
        Kind::Tour => read_tour_sizes(words, end),
    }
}

/// Reads the numbers of objectives, items and weight rows.
fn read_knapsack_sizes(words: &mut Tokens<'_>, end: u32) -> Result<Sizes, BadInstance>
    ensures read { IfOk result (λ s. numbers end (size_limits Kind.Knapsack) words.old ≡ Ok (in_text s, words.new)) }
    ensures kind { IfOk result (λ s. s.kind ≡ Kind.Knapsack) }
    ensures limits { IfOk result AreWithinLimits }
    ensures fault { IfErr result (λ e. numbers end (size_limits Kind.Knapsack) words.old ≡ Err e) }
{
    let objectives = read_number(words, end, 2, 4)?;
    let items = read_number(words, end, 1, 256)?;
    let rules = read_number(words, end, 1, 8)?;
    Ok(Sizes {
        kind: Kind::Knapsack,
        objectives: objectives as u8,
        size: items as u16,
        rules: rules as u8,
    })
}

/// Reads the numbers of objectives and agents.
fn read_assignment_sizes(words: &mut Tokens<'_>, end: u32) -> Result<Sizes, BadInstance>
    ensures read { IfOk result (λ s. numbers end (size_limits Kind.Assignment) words.old ≡ Ok (in_text s, words.new)) }
    ensures kind { IfOk result (λ s. s.kind ≡ Kind.Assignment) }
    ensures limits { IfOk result AreWithinLimits }
    ensures fault { IfErr result (λ e. numbers end (size_limits Kind.Assignment) words.old ≡ Err e) }
{
    let objectives = read_number(words, end, 2, 4)?;
    let agents = read_number(words, end, 1, 256)?;
    Ok(Sizes {
        kind: Kind::Assignment,
        objectives: objectives as u8,
        size: agents as u16,
        rules: 0,
    })
}

/// Reads the numbers of objectives and cities.
fn read_tour_sizes(words: &mut Tokens<'_>, end: u32) -> Result<Sizes, BadInstance>
    ensures read { IfOk result (λ s. numbers end (size_limits Kind.Tour) words.old ≡ Ok (in_text s, words.new)) }
    ensures kind { IfOk result (λ s. s.kind ≡ Kind.Tour) }
    ensures limits { IfOk result AreWithinLimits }
    ensures fault { IfErr result (λ e. numbers end (size_limits Kind.Tour) words.old ≡ Err e) }
{
    let objectives = read_number(words, end, 2, 4)?;
    let cities = read_number(words, end, 3, 256)?;
    Ok(Sizes {
        kind: Kind::Tour,
        objectives: objectives as u8,
        size: cities as u16,
        rules: 0,
    })
}

/// Reads the words after the sizes.
fn read_sized(
    alloc: Global,
    words: &mut Tokens<'_>,
    end: u32,
    sizes: &Sizes,
) -> Result<Instance, BadInstance>
    requires { AreWithinLimits sizes.now }
    ensures read { IfOk result (λ i. sized end sizes.now.kind (in_text sizes.now) words.old ≡ Ok i) }
    ensures fault { IfErr result (λ e. (e ≡ BadInstance.Memory) ⊎ (sized end sizes.now.kind (in_text sizes.now) words.old ≡ Err e)) }
{
    let capacities = read_numbers(alloc, words, end, sizes.capacities(), 1_000_000_000)?;
    let amounts = read_numbers(alloc, words, end, sizes.amounts(), 1_000_000)?;
    no_more(words)?;
    Ok(sizes.instance(alloc, &capacities, &amounts)?)
}

/// Extra where a word is left.
fn no_more(words: &mut Tokens<'_>) -> Result<(), BadInstance>
    ensures read { OnOk result (words.old ≡ []) }
    ensures fault { (i : AnyInstance) → IfErr result (λ e. ended_with i words.old ≡ Err e) }
{
    match words.next_word() {
        None => Ok(()),
        Some(word) => Err(BadInstance::Extra(word.place)),
    }
}

/// The next word; Short where there is none. `end` is the length of the text.
fn next_word<'a>(words: &mut Tokens<'a>, end: u32) -> Result<Word<'a>, BadInstance>
    ensures word { IfOk result (λ w. words.old ≡ placed w ∷ words.new) }
    ensures none { IfErr result (λ e. (words.old ≡ []) × (e ≡ BadInstance.Short end)) }
{
    words.next_word().ok_or(BadInstance::Short(end))
}

/// The next word as a number from `least` to `most`.
fn read_number(words: &mut Tokens<'_>, end: u32, least: u32, most: u32) -> Result<u32, BadInstance>
    requires { most < 2 ^ 32 - 1 }
    ensures read { IfOk result (λ n. number end (record { least = least; most = most }) words.old ≡ Ok (n, words.new)) }
    ensures limits { IfOk result (λ n. (least ≤ n) × (n ≤ most)) }
    ensures fault { IfErr result (λ e. number end (record { least = least; most = most }) words.old ≡ Err e) }
{
    let word = next_word(words, end)?;
    match number_of(word.text) {
        None => Err(BadInstance::Word(word.place)),
        Some(n) if least <= n && n <= most => Ok(n),
        Some(_) => Err(BadInstance::Range(word.place)),
    }
}

/// The next `count` words as numbers up to `most`.
fn read_numbers(
    alloc: Global,
    words: &mut Tokens<'_>,
    end: u32,
    count: u32,
    most: u32,
) -> Result<Vec<u32>, BadInstance>
    requires { most < 2 ^ 32 - 1 }
    ensures read { IfOk result (λ v. numbers end (replicate count (record { least = 0; most = most })) words.old ≡ Ok (v.items, words.new)) }
    ensures count { IfOk result (λ v. length v.items ≡ count) }
    ensures limits { IfOk result (λ v. All (λ n. n ≤ most) v.items) }
    ensures fault { IfErr result (λ e. (e ≡ BadInstance.Memory) ⊎ (numbers end (replicate count (record { least = 0; most = most })) words.old ≡ Err e)) }
{
    let mut numbers = Vec::with_capacity(alloc, count as usize)?;
    for _ in 0..count {
        numbers.push_reserved(read_number(words, end, 0, most)?);
    }
    Ok(numbers)
}

/// The number that a word of digits alone stands for; every number past the range of `u32` is its
/// greatest. None where a byte is no digit.
fn number_of(text: &[u8]) -> Option<u32>
    ensures none { IfNone result (all_ascii_digits text.now ≡ false) }
    ensures digits { IfSome result (λ n. all_ascii_digits text.now ≡ true) }
    ensures value { IfSome result (λ n. n ≡ min (digits_value 10 text.now) (2 ^ 32 - 1)) }
{
    let mut number = 0u32;
    for byte in text {
        if !byte.is_ascii_digit() {
            return None;
        }
        number = number
            .saturating_mul(10)
            .saturating_add(u32::from(*byte - b'0'));
    }
    Some(number)
}
