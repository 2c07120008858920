//! The names in a rule of a make dependency file.
ghost use Rattle.std.specs.Prelude.{◌≡◌, ◌≢◌, ◌∷◌, ◌++◌, [], IfOk, List, MatchOption, OnOk, ℕ, true};
ghost use Rattle.std.specs.Option.{option_map};
ghost use Rattle.cck_cache_rules.specs.Reading.{byte_lists};
ghost use Rattle.cck_cache_text.specs.Rule.{IsRuleRead, after_target, are_targets, begins_list, ends_rule, is_gap, is_pair, is_piece, is_single, is_target, name_of, names_after, piece_byte, piece_text};
ghost use Rattle.cck_cache_text.specs.declared.rule.Piece as spec;

use std::alloc::{AllocError, Global};

/// A piece of a list of names.
#[derive(Clone, Copy)]
enum Piece {
    /// A byte by itself.
    One(u8),
    /// A byte, and before it the one that quotes it.
    Two(u8, u8),
}

// Whether a byte stands by itself.
fn is_single(byte: u8) -> bool
    ensures { result ≡ is_single byte }
{
    !matches!(byte, b'\t' | b'\n' | b'$' | b'\\')
}

// Whether the first byte quotes the second one.
fn is_pair(first: u8, second: u8) -> bool
    ensures { result ≡ is_pair first second }
{
    match first {
        b'\\' => matches!(second, b'\t' | b'\n' | b' ' | b'#'),
        b'$' => second == b'$',
        _ => false,
    }
}

// The piece at the beginning of a list, and what is after it. `None` where there is no piece.
fn first_piece(list: &[u8]) -> Option<(Piece, &[u8])>
    ensures { MatchOption result
        ((piece : spec.Piece) (rest : List ℕ) → is_piece piece ≡ true → list.now ≢ piece_text piece ++ rest)
        (λ r. (is_piece r.0 ≡ true) × (list.now ≡ piece_text r.0 ++ r.1.now)) }
{
    match list {
        [byte, rest @ ..] if is_single(*byte) => Some((Piece::One(*byte), rest)),
        [first, second, rest @ ..] if is_pair(*first, *second) => {
            Some((Piece::Two(*first, *second), rest))
        }
        _ => None,
    }
}

impl Piece {
    // Whether a name ends here.
    fn is_gap(self) -> bool
        ensures { result ≡ is_gap self }
    {
        match self {
            Piece::One(byte) => byte == b' ',
            Piece::Two(_, byte) => byte == b'\n',
        }
    }

    // The byte for which a piece of a name stands.
    fn byte(self) -> u8
        ensures { result ≡ piece_byte self }
    {
        match self {
            Piece::One(byte) => byte,
            Piece::Two(_, byte) => byte,
        }
    }
}

// The names in the pieces so far.
#[derive(Drop)]
struct Names {
    // The names that have ended.
    ended: Vec<Vec<u8>>,
    // The bytes of a name that has not ended, if there are any.
    begun: Vec<u8>,
}

impl Names {
    // Ends the name that was begun, if there is one.
    fn end(&mut self, alloc: Global) -> Result<(), AllocError>
        ensures ended { OnOk result (byte_lists self.new.ended ≡ byte_lists self.old.ended ++ name_of self.old.begun.items) }
        ensures begun { OnOk result (self.new.begun.items ≡ []) }
    {
        if !self.begun.is_empty() {
            let name = self.begun.to_vec(alloc)?;
            self.ended.push(name)?;
            self.begun.clear();
        }
        Ok(())
    }

    // Adds a piece.
    fn add(&mut self, alloc: Global, piece: Piece) -> Result<(), AllocError>
        ensures { OnOk result ((more : List spec.Piece)
            → byte_lists self.new.ended ++ names_after self.new.begun.items more
            ≡ byte_lists self.old.ended ++ names_after self.old.begun.items (piece ∷ more)) }
    {
        if piece.is_gap() {
            self.end(alloc)?;
        } else {
            self.begun.push(piece.byte())?;
        }
        Ok(())
    }
}

// Whether a list of names begins here, after the colon of a target.
fn begins_list(bytes: &[u8]) -> bool
    ensures { result ≡ begins_list bytes.now }
{
    match bytes {
        [byte, ..] => matches!(*byte, b' ' | b'\\' | b'\n'),
        [] => false,
    }
}

// What is after the colon of the first target.
fn after_target(text: &[u8]) -> Option<&[u8]>
    ensures { option_map (λ r. r.now) result ≡ after_target text.now }
{
    let mut rest = text;
    while let [byte, after @ ..] = rest {
        if *byte == b':' && begins_list(after) {
            return Some(after);
        }
        rest = after;
    }
    None
}

// Whether a line is empty or a target without names.
fn is_target(line: &[u8]) -> bool
    ensures { result ≡ is_target line.now }
{
    line.is_empty() || line.ends_with(b":")
}

// Whether each line is empty or a target without names.
fn are_targets(text: &[u8]) -> bool
    ensures { result ≡ are_targets text.now }
{
    text.split(|byte| *byte == b'\n')
        .all(|line| is_target(line))
}

// Whether a rule ends here, and no other names follow.
fn ends_rule(rest: &[u8]) -> bool
    ensures { result ≡ ends_rule rest.now }
{
    match rest {
        [b'\n', others @ ..] => are_targets(others),
        _ => false,
    }
}

/// The names of the files in the first rule of a make dependency file, as the preprocessor of gcc
/// (`-MD`) and the assembler of GNU (`--MD`) write it. `None` where it is no such rule, or where other
/// rules have names too.
///
/// The target ends at the first colon that a space, a backslash or a line feed follows. In the names
/// that follow, a backslash stands before a space, a tab and `#`, which `as` also writes by itself, and
/// `$` is doubled. Spaces, and lines that a backslash continues, are between the names. A name with
/// another backslash is not read: a backslash there may stand for itself or not.
///
/// The only error is lack of memory.
pub(crate) fn rule_names(alloc: Global, rule: &[u8]) -> Result<Option<Vec<Vec<u8>>>, AllocError>
    ensures { IfOk result (λ found. IsRuleRead rule.now (option_map byte_lists found)) }
{
    let Some(list) = after_target(rule) else {
        return Ok(None);
    };
    let mut names = Names {
        ended: Vec::new(alloc),
        begun: Vec::new(alloc),
    };
    let mut rest = list;
    while let Some((piece, after)) = first_piece(rest) {
        names.add(alloc, piece)?;
        rest = after;
    }
    if !ends_rule(rest) {
        return Ok(None);
    }
    names.end(alloc)?;
    let Names { ended, begun: _ } = names;
    Ok(Some(ended))
}
